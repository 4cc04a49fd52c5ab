// One row of the factor: its paths, its elimination, its pivot.
//
//   lp      |       |   |           the room of column c of L is from lp[c] to lp[c + 1]
//   li, lx  r r r . r . r r . .     its entries of the rows so far are from lp[c] to next[c]
//   next          |   |     |
//
//   order   p p . . . . . c c c     a path in the making at the front; at the back, from top on, the columns in the order of their visits
//
// These lists come one by one, and not as one value: a row reads a part of one while it writes another, which the borrow checker covers
// only so. The rows and values of a column come as two: parts of lists that are written beside them make no column by a type of its own.
#![tactic(auto)]

ghost use Rattle.std.specs.Prelude.{◌≡◌, ℕ, ◌+◌, ◌^◌, ◌<◌, ◌≤◌, Bool, cond, List, eqb, length, get_or, take};
ghost use Rattle.std.specs.Float.{nan};
ghost use Rattle.csc.specs.Csc.{lent};
ghost use Rattle.tree.specs.Strike.{parents};
ghost use Rattle.pivot.specs.Pivots.{+0};
ghost use Rattle.row.specs.Row.{spread, diagonal, scattered, row_of};
ghost use Rattle.row.specs.Kernels.{Marking, Climbable, Climbed, Pushed, Reachable, Reached, Eliminable, Eliminated, Lists, Setting, Ordered, Rowed, Rowable, Listing, Listable, RowListed};
ghost use Rattle.row.specs.Steps.{plus, Counted, Pivoted, Ready, Stepped};

use csc::CscMatrix;
use desk::wide;
use pivot::{Pivot, Regularisation, is_positive, is_zero, regularised};
use std::error::Error;
use std::fmt;

// What moves from row to row: the next row, the pivots above zero and the shifts so far.
#[derive(Clone, Copy, Debug, PartialEq, Eq)]
pub struct Progress {
    pub row: usize,
    pub inertia: usize,
    pub shifts: usize,
}

// A pivot of zero: its row, and the shifts up to and including it.
#[derive(Clone, Copy, Debug, PartialEq, Eq)]
pub struct ZeroPivot {
    pub row: usize,
    pub shifts: usize,
}

impl fmt::Display for ZeroPivot {
    fn fmt<W: fmt::Write>(&self, f: &mut fmt::Formatter<W>) -> fmt::Result {
        let row = self.row;
        write!(f, "the pivot of row {row} is zero")
    }
}

impl Error for ZeroPivot {}

// x[r] = x[r] - l * v for each listed row r and its value l, in order.
pub fn scatter(rows: &[u32], vals: &[f64], v: f64, x: &mut [f64])
    requires rows_len { length rows.now ≡ length vals.now }
    requires by_index { (k : ℕ) → k < length rows.now → get_or rows.now k 0 < length x.old }
    ensures { x.new ≡ scattered rows.now vals.now v x.old }
{
    for (row, l) in rows.iter().zip(vals) {
        x[wide(*row)] -= *l * v;
    }
}

// Column k's entries: one above the diagonal goes to its place of y, and the diagonal one is answered, +0 where there is none.
fn spread(k: usize, rows: &[u32], vals: &[f64], y: &mut [f64]) -> f64
    requires rows_len { length rows.now ≡ length vals.now }
    requires by_index { (q : ℕ) → q < length rows.now → get_or rows.now q 0 < length y.old }
    ensures { (y.new ≡ spread k rows.now vals.now y.old) × (result ≡ diagonal k rows.now vals.now +0) }
{
    let mut d: f64 = 0.0;
    for (row, value) in rows.iter().zip(vals) {
        let r = wide(*row);
        if r == k {
            d = *value;
        } else {
            y[r] = *value;
        }
    }
    d
}

// The diagonal entry among column k's, the last where it comes twice, +0 where there is none.
pub fn diagonal(k: usize, rows: &[u32], vals: &[f64]) -> f64
    requires { length rows.now ≡ length vals.now }
    ensures { result ≡ diagonal k rows.now vals.now +0 }
{
    let mut found: f64 = 0.0;
    for (row, value) in rows.iter().zip(vals) {
        if wide(*row) == k {
            found = *value;
        }
    }
    found
}

// Goes from an entry of row k up by parents, as far as k or an unknown that is marked: marks each on the way, writes them to the
// front of order, and answers how many they are.
fn climb(start: usize, k: usize, etree: &[u32], marks: &mut [u8], order: &mut [u32]) -> usize
    requires { (s : Marking) × Climbable s k start etree.now marks.old order.old }
    ensures { (s : Marking) → Climbable s k start etree.now marks.old order.old → Climbed s k start etree.now marks.new order.old order.new result }
{
    let mut len: usize = 0;
    let mut i = start;
    while i < k {
        if marks[i] != 0 {
            return len;
        }
        marks[i] = 1;
        order[len] = i as u32;
        len += 1;
        i = wide(etree[i]);
    }
    len
}

// Moves the first len of order to right before top, and answers where they begin. A loop: `copy_within` is memmove, which the archives call
// nowhere.
fn push(len: usize, top: usize, order: &mut [u32]) -> usize
    requires { (len ≤ top) × (top ≤ length order.old) }
    ensures { Pushed len top order.old order.new result }
{
    let to = top - len;
    for i in (0..len).rev() {
        order[to + i] = order[i];
    }
    to
}

// Puts the columns of row k into the back of order, in the order in which they are visited, and answers where they begin.
fn reach(k: usize, rows: &[u32], etree: &[u32], marks: &mut [u8], order: &mut [u32]) -> usize
    requires { (g : ℕ → ℕ → Bool) × Reachable g k rows.now etree.now marks.old order.old }
    ensures { Reached k rows.now etree.now marks.new order.new result }
{
    let mut top = order.len();
    for row in rows {
        let len = climb(wide(*row), k, etree, &mut *marks, &mut *order);
        top = push(len, top, &mut *order);
    }
    top
}

// Column c in row k: takes its rows off y, stores its entry of row k behind them, clears y and the mark at c, and answers D[k] less
// what the entry takes.
fn eliminate(
    k: usize,
    c: usize,
    d: f64,
    lp: &[u32],
    li: &mut [u32],
    lx: &mut [f64],
    dinv: &[f64],
    next: &mut [u32],
    marks: &mut [u8],
    y: &mut [f64],
) -> f64
    requires { Eliminable k c lp.now li.old next.old marks.old lx.old dinv.now y.old }
    ensures { Eliminated k c d lp.now li.old li.new next.old next.new marks.old marks.new lx.old lx.new dinv.now y.old y.new result }
{
    let first = wide(lp[c]);
    let place = next[c];
    let last = wide(place);
    let v = y[c];
    scatter(&li[first..last], &lx[first..last], v, &mut *y);
    let l = v * dinv[c];
    li[last] = k as u32;
    lx[last] = l;
    next[c] = place + 1;
    marks[c] = 0;
    y[c] = 0.0;
    d - v * l
}

// The columns of row k, from top on, in their order; answers D[k].
fn eliminate_all(
    k: usize,
    top: usize,
    d: f64,
    order: &[u32],
    lp: &[u32],
    li: &mut [u32],
    lx: &mut [f64],
    dinv: &[f64],
    next: &mut [u32],
    marks: &mut [u8],
    y: &mut [f64],
) -> f64
    requires { (s : Setting) × Ordered s k top d order.now lp.now li.old next.old marks.old lx.old dinv.now y.old }
    ensures { (s : Setting) → Ordered s k top d order.now lp.now li.old next.old marks.old lx.old dinv.now y.old → Rowed s.g (length y.old) k s.lists (row_of (length y.old) k (parents (length y.old) s.g) (take k dinv.now) s.col_rows s.col_vals s.lists.rows s.lists.vals) lp.now li.new next.new marks.new lx.new y.new result }
{
    let mut dk = d;
    for column in &order[top..] {
        dk = eliminate(
            k,
            wide(*column),
            dk,
            lp,
            &mut *li,
            &mut *lx,
            dinv,
            &mut *next,
            &mut *marks,
            &mut *y,
        );
    }
    dk
}

// Row k, from the rows and values of column k: L's columns get their entries, and D[k] before its pivot is answered.
fn row_of(
    k: usize,
    rows: &[u32],
    vals: &[f64],
    etree: &[u32],
    lp: &[u32],
    li: &mut [u32],
    lx: &mut [f64],
    dinv: &[f64],
    next: &mut [u32],
    marks: &mut [u8],
    order: &mut [u32],
    y: &mut [f64],
) -> f64
    requires { (g : ℕ → ℕ → Bool) × ((s : Lists) × Rowable g s k rows.now vals.now etree.now lp.now li.old next.old marks.old order.old lx.old dinv.now y.old) }
    ensures { (g : ℕ → ℕ → Bool) (s : Lists) → Rowable g s k rows.now vals.now etree.now lp.now li.old next.old marks.old order.old lx.old dinv.now y.old → Rowed g (length y.old) k s (row_of (length y.old) k etree.now (take k dinv.now) rows.now vals.now s.rows s.vals) lp.now li.new next.new marks.new lx.new y.new result }
{
    let d = spread(k, rows, vals, &mut *y);
    let top = reach(k, rows, etree, &mut *marks, &mut *order);
    eliminate_all(k, top, d, &order[..], lp, li, lx, dinv, next, marks, y)
}

// The columns of row k, in their order: each lists k at its next free place, which moves on, and its mark is cleared.
fn list_all(k: usize, columns: &[u32], li: &mut [u32], next: &mut [u32], marks: &mut [u8])
    requires { (g : ℕ → ℕ → Bool) × ((old : List ℕ) × Listing g (length marks.old) k old columns.now li.old next.old marks.old) }
    ensures { (g : ℕ → ℕ → Bool) (old : List ℕ) → Listing g (length marks.old) k old columns.now li.old next.old marks.old → RowListed g (length marks.old) k old li.new next.new marks.new }
{
    for column in columns {
        let col = wide(*column);
        let place = next[col];
        li[wide(place)] = k as u32;
        next[col] = place + 1;
        marks[col] = 0;
    }
}

// Row k of a logical factor, from the rows of column k: L's columns get their rows alone.
pub fn list_row(
    k: usize,
    rows: &[u32],
    etree: &[u32],
    li: &mut [u32],
    next: &mut [u32],
    marks: &mut [u8],
    order: &mut [u32],
)
    requires { (g : ℕ → ℕ → Bool) × ((old : List ℕ) × Listable g old k rows.now etree.now li.old next.old marks.old order.old) }
    ensures { (g : ℕ → ℕ → Bool) (old : List ℕ) → Listable g old k rows.now etree.now li.old next.old marks.old order.old → RowListed g (length order.old) k old li.new next.new marks.new }
{
    let top = reach(k, rows, etree, &mut *marks, &mut *order);
    list_all(k, &order[top..], li, next, marks);
}

// Pivot 0 starts from the first stored value, any other from d.
fn first_or(k: usize, nzval: &[f64], d: f64) -> f64
    requires { 0 < length nzval.now }
    ensures { result ≡ cond (eqb k 0) (get_or nzval.now 0 nan) d }
{
    if k == 0 {
        return nzval[0];
    }
    d
}

// One more where b holds.
fn plus(k: usize, b: bool) -> usize
    requires { k + 1 < 2 ^ 64 }
    ensures { result ≡ plus k b }
{
    k + usize::from(b)
}

// Writes the pivot of the next row to D, and where it is not zero its reciprocal to Dinv.
fn advance(
    progress: Progress,
    pivot: Pivot,
    d: &mut [f64],
    dinv: &mut [f64],
) -> Result<Progress, ZeroPivot>
    requires { Counted progress × (progress.row < length d.old) × (progress.row < length dinv.old) }
    ensures { Pivoted progress pivot d.old d.new dinv.old dinv.new result }
{
    let k = progress.row;
    let value = pivot.value;
    let shifts = plus(progress.shifts, pivot.shifted);
    d[k] = value;
    if is_zero(value) {
        return Err(ZeroPivot { row: k, shifts });
    }
    dinv[k] = pivot.reciprocal;
    let inertia = plus(progress.inertia, is_positive(value));
    Ok(Progress {
        row: k + 1,
        inertia,
        shifts,
    })
}

// The next row of the factor. y is all zeros and no mark is set before it and after it; next has each column's first free place of L.
pub fn row(
    progress: Progress,
    a: &CscMatrix<'_>,
    etree: &[u32],
    dsigns: &[i8],
    regularisation: Regularisation,
    lp: &[u32],
    li: &mut [u32],
    lx: &mut [f64],
    d: &mut [f64],
    dinv: &mut [f64],
    next: &mut [u32],
    marks: &mut [u8],
    order: &mut [u32],
    y: &mut [f64],
) -> Result<Progress, ZeroPivot>
    requires { (s : Lists) × Ready s progress (lent a.now) etree.now dsigns.now lp.now li.old next.old marks.old order.old lx.old d.old dinv.old y.old }
    ensures { (s : Lists) → Ready s progress (lent a.now) etree.now dsigns.now lp.now li.old next.old marks.old order.old lx.old d.old dinv.old y.old → Stepped s progress (length y.old) (lent a.now) etree.now dsigns.now regularisation lp.now li.new next.new marks.new lx.new d.old d.new dinv.old dinv.new y.new result }
{
    let k = progress.row;
    let (rows, values) = a.entries(k);
    let start = row_of(
        k,
        rows,
        values,
        etree,
        lp,
        li,
        lx,
        &dinv[..],
        next,
        marks,
        order,
        y,
    );
    let pivot = regularised(regularisation, dsigns[k], first_or(k, a.nzval, start));
    advance(progress, pivot, d, dinv)
}
