// The triangular solves, and the test of L.
//
//   l.colptr   0 . . .          n + 1 pointers
//              |   |     |
//   l.rowval   r r r r . r      the rows of column i lie from l.colptr[i] to l.colptr[i + 1], each in i + 1 .. n - 1
//   l.nzval    v v v v . v
//
// The rows and values of a column come as two lists, as in row.
#![tactic(auto)]

ghost use Rattle.std.specs.Prelude.{◌≡◌, not, ◌&&◌, reverse, ℕ, ◌<◌, ◌^◌, ltb, length, get_or};
ghost use Rattle.desk.specs.Lists.{any, upto};
ghost use Rattle.csc.specs.Csc.{column};
ghost use Rattle.pivot.specs.Pivots.{+0};
ghost use Rattle.solve.specs.Solve.{lsolved, summed, dltsolved, solved, spoiled_l};
ghost use Rattle.solve.specs.Kernels.{Factored, Solvable};

use csc::{CscMatrix, bad_pointers};
use desk::wide;
use order::{ipermute, permute};
use row::scatter;

// Whether one of the rows of column i is not in i + 1 .. n - 1; it looks at all of them, so that several are compared at once.
fn outside(rows: &[u32], i: u32, n: u32) -> bool
    ensures { result ≡ any (λ k. not (ltb i k && ltb k n)) rows.now }
{
    let mut found = false;
    for r in rows {
        found |= !((i < *r) & (*r < n));
    }
    found
}

// The sum from +0 of l * x[r] over each listed row r and its value l, in order.
fn gather(rows: &[u32], vals: &[f64], x: &[f64]) -> f64
    requires rows_len { length rows.now ≡ length vals.now }
    requires by_index { (k : ℕ) → k < length rows.now → get_or rows.now k 0 < length x.now }
    ensures { result ≡ summed rows.now vals.now x.now +0 }
{
    let mut s: f64 = 0.0;
    for (j, row) in rows.iter().enumerate() {
        let r = wide(*row);
        s += vals[j] * x[r];
    }
    s
}

// Whether one of the columns i of L lists a row that is not in i + 1 .. n - 1.
fn strays(n: usize, l: &CscMatrix<'_>) -> bool
    requires { n < 2 ^ 32 }
    ensures { result ≡ any (λ i. any (λ r. not (ltb i r && ltb r n)) (column l.now.colptr.now l.now.rowval.now i)) (upto n) }
{
    (0..n).any(|c| outside(l.rows(c), c as u32, n as u32))
}

// Refusal 11, Spoiled, in solve: whether L's pointers or rows don't fit.
pub fn spoiled(n: usize, l: &CscMatrix<'_>) -> bool
    requires { n < 2 ^ 32 }
    ensures { result ≡ spoiled_l n l.now.colptr.now l.now.rowval.now l.now.nzval.now }
{
    if l.colptr.is_empty() {
        return true;
    }
    let end = l.colptr.len() - 1;
    let last = wide(l.colptr[end]);
    if bad_pointers(l.colptr, last) | (l.rowval.len() < last) | (l.nzval.len() < last) {
        return true;
    }
    strays(n, l)
}

// Solves (L + I) x = b, with x in place of b.
pub fn lsolve(l: &CscMatrix<'_>, x: &mut [f64])
    requires { Factored (length x.old) l.now.colptr.now l.now.rowval.now l.now.nzval.now }
    ensures { x.new ≡ lsolved l.now.colptr.now l.now.rowval.now l.now.nzval.now (upto (length x.old)) x.old }
{
    for i in 0..x.len() {
        let (rows, vals) = l.entries(i);
        let v = x[i];
        scatter(rows, vals, v, &mut *x);
    }
}

// Solves D (L + I)' x = b, with x in place of b.
pub fn dltsolve(l: &CscMatrix<'_>, dinv: &[f64], x: &mut [f64])
    requires factored { Factored (length x.old) l.now.colptr.now l.now.rowval.now l.now.nzval.now }
    requires dinv_len { length dinv.now ≡ length x.old }
    ensures { x.new ≡ dltsolved l.now.colptr.now l.now.rowval.now l.now.nzval.now dinv.now (reverse (upto (length x.old))) x.old }
{
    for i in (0..x.len()).rev() {
        let (rows, vals) = l.entries(i);
        x[i] = x[i] * dinv[i] - gather(rows, vals, &x[..]);
    }
}

// Solves through the ordering, with the solution in place of the right side b. x is scratch.
pub fn solve(perm: &[u32], l: &CscMatrix<'_>, dinv: &[f64], b: &mut [f64], x: &mut [f64])
    requires { Solvable perm.now l.now.colptr.now l.now.rowval.now l.now.nzval.now dinv.now b.old x.old }
    ensures { b.new ≡ solved (length perm.now) perm.now l.now.colptr.now l.now.rowval.now l.now.nzval.now dinv.now b.old }
{
    let y = &mut x[..perm.len()];
    permute(&mut *y, &b[..], perm);
    lsolve(l, &mut *y);
    dltsolve(l, dinv, &mut *y);
    ipermute(&mut *b, &y[..], perm);
}
