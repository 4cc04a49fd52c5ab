// What a word of the page spells.
ghost use Rattle.std.specs.Prelude.{◌≤◌};

use std::num::{f64_from_bits_with_nan, f64_to_bits_with_nan};

// What the numbers of a field are.
pub trait Word: Copy {
    // The number that a word spells, if it spells one.
    fn spelt(word: &[u8]) -> Option<Self>;

    // Whether two numbers are the same.
    fn alike(self, other: Self) -> bool;
}

// The value of a digit of a base up to 16.
fn digit(byte: u8) -> Option<u64> {
    match byte {
        b'0'..=b'9' => Some(u64::from(byte - b'0')),
        b'a'..=b'f' => Some(u64::from(byte - b'a') + 10),
        _ => None,
    }
}

// The number in that base.
fn number(word: &[u8], base: u64) -> Option<u64>
    requires { base ≤ 16 }
{
    if word.is_empty() {
        return None;
    }
    let mut x: u64 = 0;
    for byte in word {
        let d = digit(*byte)?;
        if base <= d {
            return None;
        }
        if 0xfff_ffff_ffff_ffff < x {
            return None;
        }
        x = x * base + d;
    }
    Some(x)
}

// A whole number.
pub fn whole(word: &[u8]) -> Option<u64> {
    number(word, 10)
}

impl Word for u32 {
    fn spelt(word: &[u8]) -> Option<u32> {
        u32::try_from(whole(word)?).ok()
    }

    fn alike(self, other: u32) -> bool {
        self == other
    }
}

impl Word for i8 {
    fn spelt(word: &[u8]) -> Option<i8> {
        match word {
            [b'-', digits @ ..] => {
                let below = i64::try_from(whole(digits)?).ok()?;
                i8::try_from(-below).ok()
            }
            _ => i8::try_from(whole(word)?).ok(),
        }
    }

    fn alike(self, other: i8) -> bool {
        self == other
    }
}

// The 16 digits of the bits, any NaN as the one NaN; all ones are none that the page writes.
impl Word for f64 {
    fn spelt(word: &[u8]) -> Option<f64> {
        if word.len() != 16 {
            return None;
        }
        let bits = number(word, 16)?;
        if bits == u64::MAX {
            return None;
        }
        Some(f64_from_bits_with_nan(bits))
    }

    // The same bits, or both a NaN, which no derived `==` says.
    fn alike(self, other: f64) -> bool {
        f64_to_bits_with_nan(self) == f64_to_bits_with_nan(other)
    }
}
