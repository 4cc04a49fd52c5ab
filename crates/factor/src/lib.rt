// The factor: all rows, numeric and logical, and the test of the tables that it reads. The lists of L and of scratch come one by one, as
// a row takes them.
#![tactic(auto)]

ghost use Rattle.std.specs.Prelude.{◌≡◌, ℕ, ◌+◌, ◌^◌, ◌<◌, ◌≤◌, length, get_or, take, replicate};
ghost use Rattle.desk.specs.Lists.{sums, over};
ghost use Rattle.csc.specs.Csc.{lent};
ghost use Rattle.tree.specs.Strike.{entry, rows_of_l};
ghost use Rattle.factor.specs.Factor.{same, spoiled_factor, logical_tables};
ghost use Rattle.factor.specs.Steps.{Testable, whole, Runnable, Ran, tables, Prepared, Signed, Factored, Unlisted, Stored, diagonals_of};

use csc::{CscMatrix, accumulate, bad_pointers, copy_starts};
use desk::{fill, wide};
use pivot::Regularisation;
use row::{Progress, ZeroPivot, row};

// Whether two tables have the same numbers. A loop: `==` of slices is a function of its own in the archive, which calls none.
fn same(a: &[u32], b: &[u32]) -> bool
    ensures { result ≡ same a.now b.now }
{
    if a.len() != b.len() {
        return false;
    }
    for i in 0..a.len() {
        if a[i] != b[i] {
            return false;
        }
    }
    true
}

// Refusal 11, Spoiled, in the factor: whether pointers or rows don't fit, or parents or counts aren't those of the pattern, whose tree is
// written to scratch alone.
pub fn spoiled(
    n: usize,
    a: &CscMatrix<'_>,
    etree: &[u32],
    lnz: &[u32],
    work: &mut [u32],
    counts: &mut [u32],
    parents: &mut [u32],
) -> bool
    requires { Testable n a.now.colptr.now work.old counts.old parents.old }
    ensures { result ≡ spoiled_factor n (length a.now.rowval.now) (lent a.now) etree.now lnz.now }
{
    if bad_pointers(a.colptr, a.rowval.len()) || a.not_upper_triangular(n) {
        return true;
    }
    tree::etree(n, a, work, &mut *counts, &mut *parents);
    !same(etree, &parents[..n]) || !same(lnz, &counts[..n])
}

// All rows one after the other, up to a zero pivot.
fn rows(
    a: &CscMatrix<'_>,
    etree: &[u32],
    dsigns: &[i8],
    regularisation: Regularisation,
    lp: &[u32],
    li: &mut [u32],
    lx: &mut [f64],
    d: &mut [f64],
    dinv: &mut [f64],
    next: &mut [u32],
    marks: &mut [u8],
    order: &mut [u32],
    y: &mut [f64],
) -> Result<Progress, ZeroPivot>
    requires { Runnable (lent a.now) etree.now dsigns.now lp.now li.old next.old marks.old order.old lx.old d.old dinv.old y.old }
    ensures { Ran (length y.old) (lent a.now) (whole (length y.old) (lent a.now) etree.now dsigns.now regularisation) li.old li.new lx.old lx.new d.new dinv.old dinv.new result }
{
    let mut progress = Progress {
        row: 0,
        inertia: 0,
        shifts: 0,
    };
    for _ in 0..y.len() {
        progress = row(
            progress,
            a,
            etree,
            dsigns,
            regularisation,
            lp,
            &mut *li,
            &mut *lx,
            &mut *d,
            &mut *dinv,
            &mut *next,
            &mut *marks,
            &mut *order,
            &mut *y,
        )?;
    }
    Ok(progress)
}

// What each factor begins with: L's pointers from the counts, each column's first free place, and no mark.
fn begin(etree: &[u32], lnz: &[u32], lp: &mut [u32], next: &mut [u32], marks: &mut [u8])
    requires counted { length etree.now ≤ length lnz.now }
    requires room { (length etree.now + 1 ≤ length lp.old) × (length etree.now ≤ length next.old) × (length etree.now ≤ length marks.old) }
    requires by_index { (c : ℕ) → c ≤ length etree.now → get_or (sums 0 (take (length etree.now) lnz.now)) c 0 < 2 ^ 32 }
    ensures pointers { lp.new ≡ over (sums 0 (take (length etree.now) lnz.now)) lp.old }
    ensures places { next.new ≡ over (take (length etree.now) lp.new) next.old }
    ensures unmarked { marks.new ≡ over (replicate (length etree.now) 0) marks.old }
{
    let n = etree.len();
    accumulate(lnz, n, &mut *lp);
    copy_starts(&lp[..], n, next);
    fill(marks, n, 0);
}

// The numeric factor. next, order, marks and y are scratch.
pub fn numeric(
    a: &CscMatrix<'_>,
    etree: &[u32],
    lnz: &[u32],
    dsigns: &[i8],
    regularisation: Regularisation,
    lp: &mut [u32],
    li: &mut [u32],
    lx: &mut [f64],
    d: &mut [f64],
    dinv: &mut [f64],
    next: &mut [u32],
    order: &mut [u32],
    marks: &mut [u8],
    y: &mut [f64],
) -> Result<Progress, ZeroPivot>
    requires prepared { Prepared (lent a.now) etree.now lnz.now (tables lp.old li.old lx.old d.old dinv.old) next.old order.old marks.old }
    requires signed { Signed (length etree.now) dsigns.now y.old }
    ensures { Factored (length etree.now) (lent a.now) (whole (length etree.now) (lent a.now) etree.now dsigns.now regularisation) (tables lp.old li.old lx.old d.old dinv.old) (tables lp.new li.new lx.new d.new dinv.new) result }
{
    let n = etree.len();
    begin(etree, lnz, &mut *lp, &mut *next, &mut *marks);
    fill(&mut *d, n, 0.0);
    fill(&mut *y, n, 0.0);
    rows(
        a,
        etree,
        dsigns,
        regularisation,
        &lp[..n + 1],
        li,
        lx,
        &mut d[..n],
        &mut dinv[..n],
        &mut next[..n],
        &mut marks[..n],
        &mut order[..n],
        &mut y[..n],
    )
}

// The rows of L's columns, row by row.
fn list_rows(
    a: &CscMatrix<'_>,
    etree: &[u32],
    li: &mut [u32],
    next: &mut [u32],
    marks: &mut [u8],
    order: &mut [u32],
)
    requires { Unlisted a.now.colptr.now a.now.rowval.now etree.now li.old next.old marks.old order.old }
    ensures { li.new ≡ over (rows_of_l (length etree.now) (entry a.now.colptr.now a.now.rowval.now)) li.old }
{
    for k in 0..etree.len() {
        row::list_row(
            k,
            a.rows(k),
            etree,
            &mut *li,
            &mut *next,
            &mut *marks,
            &mut *order,
        );
    }
}

// D of a logical factor: +0 first, and from then on each column's diagonal entry.
fn diagonals(a: &CscMatrix<'_>, n: usize, d: &mut [f64])
    requires { Stored n (lent a.now) d.old }
    ensures { d.new ≡ over (diagonals_of n (lent a.now)) d.old }
{
    d[0] = 0.0;
    for k in 1..n {
        let (rows, values) = a.entries(k);
        let value = row::diagonal(k, rows, values);
        d[k] = value;
    }
}

// The logical factor: L's rows, ones for its values and for Dinv, and D as it is stored. next, order and marks are scratch.
pub fn logical(
    a: &CscMatrix<'_>,
    etree: &[u32],
    lnz: &[u32],
    lp: &mut [u32],
    li: &mut [u32],
    lx: &mut [f64],
    d: &mut [f64],
    dinv: &mut [f64],
    next: &mut [u32],
    order: &mut [u32],
    marks: &mut [u8],
)
    requires { Prepared (lent a.now) etree.now lnz.now (tables lp.old li.old lx.old d.old dinv.old) next.old order.old marks.old }
    ensures { tables lp.new li.new lx.new d.new dinv.new ≡ logical_tables (length etree.now) (lent a.now) (tables lp.old li.old lx.old d.old dinv.old) }
{
    let n = etree.len();
    begin(etree, lnz, &mut *lp, &mut *next, &mut *marks);
    list_rows(
        a,
        etree,
        li,
        &mut next[..n],
        &mut marks[..n],
        &mut order[..n],
    );
    let m = wide(lp[n]);
    fill(lx, m, 1.0);
    fill(dinv, n, 1.0);
    diagonals(a, n, d);
}
