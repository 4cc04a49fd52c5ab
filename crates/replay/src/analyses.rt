// The analysis of a vector, and the tables that it leaves.
use crate::field::{ROOM, front, has, read, read_one};
use crate::tally::Outcome;
use analysis::Tables;
use csc::CscMatrix;
use desk::wide;
use qdldl::Status;

// The sum of the counts.
fn total(counts: &[u32]) -> usize {
    counts
        .iter()
        .fold(0, |sum: usize, count| sum.wrapping_add(wide(*count)))
}

// Whether the tables of an analysis are the vector's, whose matrix has that many pointers.
fn tables(vector: &[u8], status: Status, pointers: usize, out: &Tables<'_>) -> bool {
    let n = status.n;
    let m = status.m;
    let counts = front(out.lnz, n);
    has(vector, b"Ap", front(out.pc, pointers))
        & has(vector, b"Ai", front(out.pr, m))
        & has(vector, b"AtoPAPt", front(out.map, m))
        & has(vector, b"etree", front(out.etree, n))
        & has(vector, b"Lnz", counts)
        & has(vector, b"permuted_Dsigns", front(out.dsigns, n))
        & (status.nnzl == total(counts))
}

// Whether an edit follows, or the values are the vector's.
fn values(vector: &[u8], m: usize, vals: &[f64]) -> bool {
    read_one(vector, b"edits") != Some(0) || has(vector, b"Ax", front(vals, m))
}

// Analyses the matrix, and says whether the tables are the vector's, where the matrix can be read and is not refused.
fn analysed(vector: &[u8], map: &mut [u32], vals: &mut [f64]) -> Option<bool> {
    let mut colptr = [0u32; ROOM];
    let mut rowval = [0u32; ROOM];
    let mut nzval = [0f64; ROOM];
    let mut perm = [0u32; ROOM];
    let mut signs = [0i8; ROOM];
    let a = CscMatrix {
        colptr: read(vector, b"colptr", &mut colptr)?,
        rowval: read(vector, b"rowval", &mut rowval)?,
        nzval: read(vector, b"nzval", &mut nzval)?,
    };
    let perm = read(vector, b"perm", &mut perm)?;
    let signs = read(vector, b"Dsigns", &mut signs)?;
    let n = read_one(vector, b"n")?;
    let mut out = Tables {
        pc: &mut [0; ROOM],
        pr: &mut [0; ROOM],
        pv: vals,
        map,
        etree: &mut [0; ROOM],
        lnz: &mut [0; ROOM],
        dsigns: &mut [0; ROOM],
    };
    let status = Status::empty()
        .analyse(
            n,
            n,
            &a,
            perm,
            signs,
            &mut out,
            &mut [0; ROOM],
            &mut [0; ROOM],
            &mut [0; ROOM],
        )
        .ok()?;
    Some(tables(vector, status, a.colptr.len(), &out) & values(vector, a.rowval.len(), out.pv))
}

// Replays the analysis, with the map and the values that it leaves.
pub fn replay(vector: &[u8], map: &mut [u32], vals: &mut [f64]) -> Outcome {
    Outcome::from(analysed(vector, map, vals).unwrap_or(false))
}
