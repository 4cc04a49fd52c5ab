// The solve of a vector, by its own factor, behind its tests.
use crate::field::{ROOM, has, read};
use crate::tally::Outcome;
use csc::CscMatrix;

// Solves with the vector's own factor in place of b, where it passes its tests.
fn solve(perm: &[u32], l: &CscMatrix<'_>, dinv: &[f64], b: &mut [f64]) -> Option<()> {
    let mut iperm = [0u32; ROOM];
    let mut work = [0f64; ROOM];
    let n = perm.len();
    if (ROOM < n) | (l.colptr.len() != n + 1) | (dinv.len() != n) | (b.len() != n) {
        return None;
    }
    if !order::invperm(perm, &mut iperm) {
        return None;
    }
    if solve::spoiled(n, l) {
        return None;
    }
    solve::solve(perm, l, dinv, b, &mut work);
    Some(())
}

// Whether the solution is the vector's, where its fields can be read.
fn solved(vector: &[u8]) -> Option<bool> {
    let mut perm = [0u32; ROOM];
    let mut lp = [0u32; ROOM];
    let mut li = [0u32; ROOM];
    let mut lx = [0f64; ROOM];
    let mut dinv = [0f64; ROOM];
    let mut b = [0f64; ROOM];
    let perm = read(vector, b"perm", &mut perm)?;
    let l = CscMatrix {
        colptr: read(vector, b"Lp", &mut lp)?,
        rowval: read(vector, b"Li", &mut li)?,
        nzval: read(vector, b"Lx", &mut lx)?,
    };
    let dinv = read(vector, b"Dinv", &mut dinv)?;
    let r = read(vector, b"b", &mut b)?.len();
    let right = b.get_mut(..r)?;
    solve(perm, &l, dinv, right)?;
    Some(has(vector, b"x", right))
}

// Replays the solve, where the vector has a solution.
pub fn replay(vector: &[u8]) -> Outcome {
    if has::<f64>(vector, b"x", &[]) {
        return Outcome::Absent;
    }
    Outcome::from(solved(vector).unwrap_or(false))
}
