// The fields of a vector: a name, a count and that many numbers to a line.
use crate::page::{first, from, marks, past};
use crate::word::{Word, whole};
use desk::wide;

// The longest field that is read.
pub const ROOM: usize = 64;

// The line of the field after its name.
fn field<'p, 'n>(page: &'p [u8], name: &'n [u8]) -> &'p [u8] {
    past(first(from(page, name), b'\n'), b' ')
}

// The count of a field, where it is that of the numbers after it.
fn count(field: &[u8]) -> Option<usize> {
    let found = marks(field, b' ');
    if whole(first(field, b' '))? == found as u64 {
        Some(found)
    } else {
        None
    }
}

// The count of the field of that name.
pub fn count_of(page: &[u8], name: &[u8]) -> Option<usize> {
    count(field(page, name))
}

// Reads a field into the room lent: its numbers, where it is there, fits and is spelt right.
pub fn read<'r, 'p, T: Word>(page: &'p [u8], name: &'p [u8], room: &'r mut [T]) -> Option<&'r [T]> {
    let line = field(page, name);
    let n = count(line)?;
    if room.len() < n {
        return None;
    }
    let mut words = past(line, b' ');
    for place in &mut room[..n] {
        *place = T::spelt(first(words, b' '))?;
        words = past(words, b' ');
    }
    Some(&room[..n])
}

// Reads a field of one whole number.
pub fn read_one(page: &[u8], name: &[u8]) -> Option<usize> {
    let mut room = [0u32; 1];
    match read(page, name, &mut room)? {
        [one] => Some(wide(*one)),
        _ => None,
    }
}

// The first n numbers, or all where they are fewer.
pub fn front<T>(xs: &[T], n: usize) -> &[T] {
    xs.get(..n).unwrap_or(xs)
}

// Whether a field has just these numbers.
pub fn has<T: Word>(page: &[u8], name: &[u8], xs: &[T]) -> bool {
    let line = field(page, name);
    if count(line) != Some(xs.len()) {
        return false;
    }
    let mut words = past(line, b' ');
    for x in xs {
        match T::spelt(first(words, b' ')) {
            Some(read) if read.alike(*x) => words = past(words, b' '),
            _ => return false,
        }
    }
    true
}
