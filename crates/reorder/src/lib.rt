// The reordered triangle. Entry (r, c) goes to column max(iperm[r], iperm[c]), row the minimum; columns fill in input storage order.
// next, pr and pv come one by one: three words at a call, of which a type of their own would say no more.
#![tactic(auto)]

ghost use Rattle.std.specs.Prelude.{◌≡◌, ℕ, ◌+◌, ◌^◌, ◌<◌, ◌≤◌, min, max, length, get_or, take, set};
ghost use Rattle.desk.specs.Lists.{sums, over};
ghost use Rattle.csc.specs.Csc.{matrix, lent};
ghost use Rattle.reorder.specs.Reorder.{new_cols, new_rows};
ghost use Rattle.reorder.specs.Kernels.{Reorderable, Reordered};
ghost use Rattle.reorder.specs.Steps.{ColumnReady, EntriesReady, Filled, advanced, cols_of, rows_of, room_of, widest};

use csc::{CscMatrix, accumulate, copy_starts};
use desk::{fill, wide};

// Counts the rows of column c, each at its new column.
fn count_column(rows: &[u32], c: usize, iperm: &[u32], next: &mut [u32])
    requires { ColumnReady c widest rows.now iperm.now next.old }
    ensures { next.new ≡ advanced (cols_of iperm.now c rows.now) next.old }
{
    let at = iperm[c];
    for row in rows {
        let r = wide(*row);
        let k = wide(iperm[r].max(at));
        next[k] += 1;
    }
}

// Counts the entries of a, each at its new column.
fn count_entries(a: &CscMatrix<'_>, iperm: &[u32], next: &mut [u32])
    requires { EntriesReady widest a.now.colptr.now a.now.rowval.now iperm.now next.old }
    ensures { next.new ≡ advanced (new_cols (length iperm.now) iperm.now a.now.colptr.now a.now.rowval.now) next.old }
{
    for c in 0..iperm.len() {
        count_column(a.rows(c), c, iperm, next);
    }
}

// Writes an entry to the next free place of column k, moves that on, and answers the place.
fn place_entry(
    k: usize,
    row: u32,
    value: f64,
    next: &mut [u32],
    pr: &mut [u32],
    pv: &mut [f64],
) -> u32
    requires k_in_bounds { k < length next.old }
    requires k_bound { get_or next.old k 0 < room_of pr.old pv.old }
    ensures answer { result ≡ get_or next.old k 0 }
    ensures moved { next.new ≡ set next.old k (get_or next.old k 0 + 1) }
    ensures rows { pr.new ≡ set pr.old (get_or next.old k 0) row }
    ensures values { pv.new ≡ set pv.old (get_or next.old k 0) value }
{
    let place = next[k];
    let p = wide(place);
    pr[p] = row;
    pv[p] = value;
    next[k] = place + 1;
    place
}

// Writes the entries of column c, each at the next free place of its new column, and these places to map.
fn fill_column(
    rows: &[u32],
    vals: &[f64],
    c: usize,
    iperm: &[u32],
    next: &mut [u32],
    pr: &mut [u32],
    pv: &mut [f64],
    map: &mut [u32],
)
    requires column_ready { ColumnReady c (room_of pr.old pv.old) rows.now iperm.now next.old }
    requires vals_len { length vals.now ≡ length rows.now }
    requires map_len { length map.old ≡ length rows.now }
    ensures { Filled (cols_of iperm.now c rows.now) (rows_of iperm.now c rows.now) vals.now next.old next.new pr.old pr.new pv.old pv.new map.old map.new }
{
    let at = iperm[c];
    for (j, listed) in rows.iter().enumerate() {
        let r = wide(*listed);
        let row = iperm[r];
        let k = wide(row.max(at));
        let place = place_entry(k, row.min(at), vals[j], next, pr, pv);
        map[j] = place;
    }
}

// Writes all entries of a, each at the next free place of its new column, and these places to map.
fn fill_entries(
    a: &CscMatrix<'_>,
    iperm: &[u32],
    next: &mut [u32],
    pr: &mut [u32],
    pv: &mut [f64],
    map: &mut [u32],
)
    requires entries_ready { EntriesReady (room_of pr.old pv.old) a.now.colptr.now a.now.rowval.now iperm.now next.old }
    requires nzval_len { length a.now.nzval.now ≡ length a.now.rowval.now }
    requires rowval_in_bounds { length a.now.rowval.now ≤ length map.old }
    ensures { Filled (new_cols (length iperm.now) iperm.now a.now.colptr.now a.now.rowval.now) (new_rows (length iperm.now) iperm.now a.now.colptr.now a.now.rowval.now) a.now.nzval.now next.old next.new pr.old pr.new pv.old pv.new map.old map.new }
{
    for c in 0..iperm.len() {
        let rows = a.rows(c);
        let first = wide(a.colptr[c]);
        let last = wide(a.colptr[c + 1]);
        fill_column(
            rows,
            &a.nzval[first..last],
            c,
            iperm,
            next,
            pr,
            pv,
            &mut map[first..last],
        );
    }
}

// Writes the reordered triangle of a to the fronts of pc, pr and pv, and each entry's new place to map. next is scratch.
pub fn permute_symmetric(
    a: &CscMatrix<'_>,
    iperm: &[u32],
    pc: &mut [u32],
    pr: &mut [u32],
    pv: &mut [f64],
    map: &mut [u32],
    next: &mut [u32],
)
    requires { Reorderable iperm.now (lent a.now) (matrix pc.old pr.old pv.old) map.old next.old }
    ensures { Reordered iperm.now (lent a.now) (matrix pc.old pr.old pv.old) (matrix pc.new pr.new pv.new) map.old map.new }
{
    let n = iperm.len();
    fill(next, n, 0);
    count_entries(a, iperm, next);
    accumulate(next, n, pc);
    copy_starts(pc, n, next);
    fill_entries(a, iperm, next, pr, pv, map);
}
