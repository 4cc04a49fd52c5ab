// A matrix by its columns: the rows of one column, the faults of a matrix that the desk refuses, and the pointers of counted columns.
//
//   colptr   0 . . . m            n + 1 pointers
//            |   |       |
//   rowval   r r r r . . r r      the rows of column c lie from colptr[c] to colptr[c + 1]
//   nzval    v v v v . . v v
#![tactic(auto)]

ghost use Rattle.std.specs.Prelude.{◌≡◌, ℕ, ◌+◌, ◌^◌, ◌<◌, ◌≤◌, leb, ltb, length, get_or, take};
ghost use Rattle.desk.specs.Lists.{any, sums, over};
ghost use Rattle.csc.specs.Csc.{column, rises, fall, bad_pointers, malformed, not_upper, empty_column, unsorted_column};

use desk::wide;

// A matrix as it is lent.
#[derive(Clone, Copy, Debug)]
pub struct CscMatrix<'a> {
    pub colptr: &'a [u32],
    pub rowval: &'a [u32],
    pub nzval: &'a [f64],
}

// The rows of column c, as a part of the rows lent. Pointers and rows are lent apart, each for its own time, as the paper has it.
pub fn column<'p, 'r>(colptr: &'p [u32], rowval: &'r [u32], c: usize) -> &'r [u32]
    ensures { result.now ≡ column colptr.now rowval.now c }
{
    if c < colptr.len() {
        if c + 1 < colptr.len() {
            let first = wide(colptr[c]);
            let last = wide(colptr[c + 1]);
            if first <= last {
                if last <= rowval.len() {
                    return &rowval[first..last];
                }
            }
        }
    }
    &rowval[0..0]
}

// Whether one of the pointers up to the last is above the next one.
#[tactic(auto, unfolding(crate::specs::Csc::fall))]
fn falls(colptr: &[u32], last: usize) -> bool
    requires { last + 1 ≡ length colptr.now }
    ensures { result ≡ fall colptr.now }
{
    (0..last).any(|c| colptr[c + 1] < colptr[c])
}

// Whether the pointers don't start at 0, fall, or don't end at m.
pub fn bad_pointers(colptr: &[u32], m: usize) -> bool
    ensures { result ≡ bad_pointers m colptr.now }
{
    if colptr.is_empty() {
        return true;
    }
    let late = colptr[0] != 0;
    let last = colptr.len() - 1;
    late || (falls(colptr, last) | (wide(colptr[last]) != m))
}

// Whether one of the rows is n or more.
pub fn reaches(rows: &[u32], n: usize) -> bool
    ensures { result ≡ any (leb n) rows.now }
{
    rows.iter().any(|row| n <= wide(*row))
}

// Whether one of the rows exceeds c: `reaches` at c + 1, said by itself, so that the test of all columns proves by it.
fn exceeds(rows: &[u32], c: usize) -> bool
    ensures { result ≡ any (ltb c) rows.now }
{
    rows.iter().any(|row| c < wide(*row))
}

// Whether each row is above the one before it.
pub fn rising(rows: &[u32]) -> bool
    ensures { result ≡ rises rows.now }
{
    rows.is_sorted_by(|before, row| before < row)
}

impl CscMatrix<'_> {
    // The rows of column c.
    pub fn rows(&self, c: usize) -> &[u32]
        ensures { result.now ≡ column self.now.colptr.now self.now.rowval.now c }
    {
        column(self.colptr, self.rowval, c)
    }

    // The rows and the values of column c, whose pointers fit.
    pub fn entries(&self, c: usize) -> (&[u32], &[f64])
        requires pointers { c + 1 < length self.now.colptr.now }
        requires rises { get_or self.now.colptr.now c 0 ≤ get_or self.now.colptr.now (c + 1) 0 }
        requires in_rows { get_or self.now.colptr.now (c + 1) 0 ≤ length self.now.rowval.now }
        requires in_values { get_or self.now.colptr.now (c + 1) 0 ≤ length self.now.nzval.now }
        ensures rows { result.0.now ≡ column self.now.colptr.now self.now.rowval.now c }
        ensures values { result.1.now ≡ column self.now.colptr.now self.now.nzval.now c }
    {
        let first = wide(self.colptr[c]);
        let last = wide(self.colptr[c + 1]);
        (&self.rowval[first..last], &self.nzval[first..last])
    }

    // Refusal 5, MalformedMatrix.
    #[tactic(auto, unfolding(crate::specs::Csc::malformed))]
    pub fn malformed_matrix(&self, n: usize) -> bool
        ensures { result ≡ malformed n self.now.colptr.now self.now.rowval.now }
    {
        bad_pointers(self.colptr, self.rowval.len()) || reaches(self.rowval, n)
    }

    // Refusal 6, NotUpperTriangular.
    #[tactic(auto, unfolding(crate::specs::Csc::not_upper))]
    pub fn not_upper_triangular(&self, n: usize) -> bool
        ensures { result ≡ not_upper n self.now.colptr.now self.now.rowval.now }
    {
        (0..n).any(|c| exceeds(self.rows(c), c))
    }

    // Refusal 7, EmptyColumn.
    #[tactic(auto, unfolding(crate::specs::Csc::empty_column))]
    pub fn empty_column(&self, n: usize) -> bool
        ensures { result ≡ empty_column n self.now.colptr.now self.now.rowval.now }
    {
        (0..n).any(|c| self.rows(c).is_empty())
    }

    // Refusal 8, UnsortedColumn.
    #[tactic(auto, unfolding(crate::specs::Csc::unsorted_column))]
    pub fn unsorted_column(&self, n: usize) -> bool
        ensures { result ≡ unsorted_column n self.now.colptr.now self.now.rowval.now }
    {
        (0..n).any(|c| !rising(self.rows(c)))
    }
}

// Writes the pointers of columns with these counts: 0, and the sums of the first n counts.
pub fn accumulate(counts: &[u32], n: usize, colptr: &mut [u32])
    requires n_in_bounds { n ≤ length counts.now }
    requires n_in_bounds_2 { n + 1 ≤ length colptr.old }
    requires by_index { (c : ℕ) → c ≤ n → get_or (sums 0 (take n counts.now)) c 0 < 2 ^ 32 }
    ensures { colptr.new ≡ over (sums 0 (take n counts.now)) colptr.old }
{
    colptr[0] = 0;
    let mut acc: u32 = 0;
    for (c, count) in counts[..n].iter().enumerate() {
        acc += *count;
        colptr[c + 1] = acc;
    }
}

// Copies the first n pointers: each column's next free place is its first. A loop: `copy_from_slice` is memmove, which the archives call
// nowhere.
pub fn copy_starts(colptr: &[u32], n: usize, next: &mut [u32])
    requires n_in_bounds { n ≤ length colptr.now }
    requires n_in_bounds_2 { n ≤ length next.old }
    ensures { next.new ≡ over (take n colptr.now) next.old }
{
    for (c, start) in colptr[..n].iter().enumerate() {
        next[c] = *start;
    }
}
