// The desk: what it sends back, by number, and the limits of what crosses it.
#![tactic(auto)]

ghost use Rattle.std.specs.Prelude.{◌≡◌, ◌≤◌, [], ◌∷◌, length, replicate};
ghost use Rattle.desk.specs.Desk.{number_of, bad_size, bad_sign};
ghost use Rattle.desk.specs.Lists.{any, short, over};

use std::error::Error;
use std::fmt;

pub const MAX_N: usize = 2048;

pub const MAX_M: usize = 65536;

// What a call refuses with. NoRoom has the entries that L needs, ZeroPivot the row of the pivot.
#[derive(Clone, Copy, Debug, PartialEq, Eq)]
pub enum Refusal {
    NotReady,
    IncompatibleDimension,
    BadSize,
    BadLength,
    MalformedMatrix,
    NotUpperTriangular,
    EmptyColumn,
    UnsortedColumn,
    InvalidPermutation,
    BadSign,
    Spoiled,
    BadIndex,
    NoRoom(u32),
    ZeroPivot(u32),
}

// Its number.
impl From<Refusal> for u8 {
    ghost from_gives = { λ refusal number. number ≡ number_of refusal };

    fn from(refusal: Refusal) -> u8 {
        match refusal {
            Refusal::NotReady => 1,
            Refusal::IncompatibleDimension => 2,
            Refusal::BadSize => 3,
            Refusal::BadLength => 4,
            Refusal::MalformedMatrix => 5,
            Refusal::NotUpperTriangular => 6,
            Refusal::EmptyColumn => 7,
            Refusal::UnsortedColumn => 8,
            Refusal::InvalidPermutation => 9,
            Refusal::BadSign => 10,
            Refusal::Spoiled => 11,
            Refusal::BadIndex => 12,
            Refusal::NoRoom(_) => 13,
            Refusal::ZeroPivot(_) => 14,
        }
    }
}

// Its name, and what it says in words.
impl fmt::Display for Refusal {
    fn fmt<W: fmt::Write>(&self, f: &mut fmt::Formatter<W>) -> fmt::Result {
        f.write_str(match self {
            Refusal::NotReady => "NotReady",
            Refusal::IncompatibleDimension => "IncompatibleDimension: rows differ from columns",
            Refusal::BadSize => "BadSize: too few or too many",
            Refusal::BadLength => "BadLength: a list is not as long as it should be",
            Refusal::MalformedMatrix => "MalformedMatrix: the pointers or a row do not fit",
            Refusal::NotUpperTriangular => "NotUpperTriangular: a row exceeds its column",
            Refusal::EmptyColumn => "EmptyColumn: a column has no entry",
            Refusal::UnsortedColumn => "UnsortedColumn: the rows of a column do not rise",
            Refusal::InvalidPermutation =>
                "InvalidPermutation: the ordering is not each number once",
            Refusal::BadSign => "BadSign: a sign is none of -1, 0, 1",
            Refusal::Spoiled => "Spoiled: a table is not what it should be",
            Refusal::BadIndex => "BadIndex: an index names no entry",
            Refusal::NoRoom(_) => "NoRoom: L is too short",
            Refusal::ZeroPivot(_) => "ZeroPivot",
        })
    }
}

impl Error for Refusal {}

// Refusal 3, BadSize, in the analysis.
pub fn bad_size(n: usize, m: usize) -> bool
    ensures { result ≡ bad_size n m }
{
    (n == 0) | (MAX_N < n) | (MAX_M < m)
}

// Whether a sign is outside -1, 0, 1.
pub fn bad_sign(sign: i8) -> bool
    ensures { result ≡ bad_sign sign }
{
    match sign {
        -1..=1 => false,
        _ => true,
    }
}

// Refusal 10, BadSign.
pub fn bad_signs(signs: &[i8]) -> bool
    ensures { result ≡ any bad_sign signs.now }
{
    signs.iter().any(|sign| bad_sign(*sign))
}

// Whether one of the three parts of u32 scratch is shorter than n.
pub fn short_scratch(n: usize, a: &[u32], b: &[u32], c: &[u32]) -> bool
    ensures { result ≡ any (short n) (a.now ∷ b.now ∷ c.now ∷ []) }
{
    (a.len() < n) | (b.len() < n) | (c.len() < n)
}

// A table's number as an index, since no `From` leads from u32 to usize.
pub fn wide(x: u32) -> usize
    ensures { result ≡ x }
{
    x as usize
}

// Writes v to the first n places of a table.
pub fn fill<T: Copy>(xs: &mut [T], n: usize, v: T)
    requires { n ≤ length xs.old }
    ensures { xs.new ≡ over (replicate n v) xs.old }
{
    for x in &mut xs[..n] {
        *x = v;
    }
}
