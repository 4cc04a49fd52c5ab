// The edits of a vector, behind their tests.
use crate::field::{ROOM, count_of, front, has, read, read_one};
use crate::page::{extent, from};
use crate::tally::Outcome;
use csc::reaches;

// The kinds of edit, by their numbers on the page.
#[derive(Clone, Copy, Debug, PartialEq, Eq)]
enum Kind {
    Update,
    Scale,
    Offset,
}

impl TryFrom<usize> for Kind {
    type Error = ();

    fn try_from(number: usize) -> Result<Kind, ()> {
        match number {
            1 => Ok(Kind::Update),
            2 => Ok(Kind::Scale),
            3 => Ok(Kind::Offset),
            _ => Err(()),
        }
    }
}

// Edits the values through the map, where the edit passes its tests.
fn apply(
    kind: Kind,
    map: &[u32],
    indices: &[u32],
    values: &[f64],
    signs: &[i8],
    vals: &mut [f64],
) -> Option<()> {
    let m = map.len();
    if vals.len() != m {
        return None;
    }
    if reaches(map, m) {
        return None;
    }
    if reaches(indices, m) {
        return None;
    }
    match (kind, values) {
        (Kind::Update, _) if values.len() == indices.len() => {
            edit::update_values(map, indices, values, vals);
        }
        (Kind::Scale, [scale]) => edit::scale_values(map, indices, *scale, vals),
        (Kind::Offset, [offset]) if signs.len() == indices.len() => {
            edit::offset_values(map, indices, *offset, signs, vals);
        }
        _ => return None,
    }
    Some(())
}

// Replays one edit, where it can be.
fn edit_one(edit: &[u8], map: &[u32], vals: &mut [f64]) -> Option<()> {
    let mut indices = [0u32; ROOM];
    let mut values = [0f64; ROOM];
    let mut signs = [0i8; ROOM];
    let indices = read(edit, b"indices", &mut indices)?;
    let values = read(edit, b"values", &mut values)?;
    let signs = read(edit, b"signs", &mut signs)?;
    let kind = Kind::try_from(read_one(edit, b"kind")?).ok()?;
    apply(kind, map, indices, values, signs, vals)
}

// Replays the edits, and says how many could be.
fn edit_all(edits: &[u8], map: &[u32], vals: &mut [f64]) -> usize {
    let mut rest = edits;
    let mut done: usize = 0;
    while !rest.is_empty() {
        let (edit, others) = rest.split_at(extent(rest, b"kind"));
        if edit_one(edit, map, vals).is_none() {
            return done;
        }
        done += 1;
        rest = others;
    }
    done
}

// Replays the edits of a vector on the values of its analysis.
pub fn replay(vector: &[u8], map: &[u32], vals: &mut [f64]) -> Outcome {
    let said = read_one(vector, b"edits");
    if said == Some(0) {
        return Outcome::Absent;
    }
    let Some(m) = count_of(vector, b"rowval") else {
        return Outcome::Differs;
    };
    let Some(held) = vals.get_mut(..m) else {
        return Outcome::Differs;
    };
    let done = edit_all(from(vector, b"kind"), front(map, m), held);
    Outcome::from((said == Some(done)) & has(vector, b"Ax", held))
}
