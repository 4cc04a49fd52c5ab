// The archive of the kernels, for C: each export is its namesake of `kernels`, with its clauses, since no crate can stand on an archive.
#![tactic(auto)]

ghost use Rattle.std.specs.Prelude.{◌≡◌, ◌<◌, ◌≤◌, ◌^◌, [], reverse, length};
ghost use Rattle.desk.specs.Lists.{upto};
ghost use Rattle.csc.specs.Csc.{matrix};
ghost use Rattle.factor.specs.Factor.{tables_of, logical_tables, spoiled_factor};
ghost use Rattle.factor.specs.Steps.{Testable, whole, finished, tables, Prepared, Signed};
ghost use Rattle.solve.specs.Solve.{lsolved, dltsolved, solved, spoiled_l};
ghost use Rattle.solve.specs.Kernels.{Factored, Solvable};
ghost use Rattle.edit.specs.Edit.{updated, scaled, offset as offsetted};
ghost use Rattle.edit.specs.Kernels.{Editable};
ghost use Rattle.kernels.specs.Words.{settings, Told};

#[unsafe(no_mangle)]
pub extern "C" fn coinravel_kernel_spoiled(n: usize, lp: &[u32], li: &[u32], lx: &[f64]) -> bool
    requires { n < 2 ^ 32 }
    ensures { result ≡ spoiled_l n lp.now li.now lx.now }
{
    kernels::coinravel_kernel_spoiled(n, lp, li, lx)
}

#[unsafe(no_mangle)]
pub extern "C" fn coinravel_kernel_lsolve(lp: &[u32], li: &[u32], lx: &[f64], x: &mut [f64])
    requires { Factored (length x.old) lp.now li.now lx.now }
    ensures { x.new ≡ lsolved lp.now li.now lx.now (upto (length x.old)) x.old }
{
    kernels::coinravel_kernel_lsolve(lp, li, lx, x);
}

#[unsafe(no_mangle)]
pub extern "C" fn coinravel_kernel_dltsolve(
    lp: &[u32],
    li: &[u32],
    lx: &[f64],
    dinv: &[f64],
    x: &mut [f64],
)
    requires factored { Factored (length x.old) lp.now li.now lx.now }
    requires dinv_len { length dinv.now ≡ length x.old }
    ensures { x.new ≡ dltsolved lp.now li.now lx.now dinv.now (reverse (upto (length x.old))) x.old }
{
    kernels::coinravel_kernel_dltsolve(lp, li, lx, dinv, x);
}

#[unsafe(no_mangle)]
pub extern "C" fn coinravel_kernel_solve(
    perm: &[u32],
    lp: &[u32],
    li: &[u32],
    lx: &[f64],
    dinv: &[f64],
    b: &mut [f64],
    x: &mut [f64],
)
    requires { Solvable perm.now lp.now li.now lx.now dinv.now b.old x.old }
    ensures { b.new ≡ solved (length perm.now) perm.now lp.now li.now lx.now dinv.now b.old }
{
    kernels::coinravel_kernel_solve(perm, lp, li, lx, dinv, b, x);
}

#[unsafe(no_mangle)]
pub extern "C" fn coinravel_kernel_update_values(
    map: &[u32],
    indices: &[u32],
    values: &[f64],
    vals: &mut [f64],
)
    requires editable { Editable map.now indices.now vals.old }
    requires values_len { length values.now ≡ length indices.now }
    ensures { vals.new ≡ updated map.now indices.now values.now vals.old }
{
    kernels::coinravel_kernel_update_values(map, indices, values, vals);
}

#[unsafe(no_mangle)]
pub extern "C" fn coinravel_kernel_scale_values(
    map: &[u32],
    indices: &[u32],
    scale: f64,
    vals: &mut [f64],
)
    requires { Editable map.now indices.now vals.old }
    ensures { vals.new ≡ scaled map.now indices.now scale vals.old }
{
    kernels::coinravel_kernel_scale_values(map, indices, scale, vals);
}

#[unsafe(no_mangle)]
pub extern "C" fn coinravel_kernel_offset_values(
    map: &[u32],
    indices: &[u32],
    offset: f64,
    signs: &[i8],
    vals: &mut [f64],
)
    requires editable { Editable map.now indices.now vals.old }
    requires signs_len { length signs.now ≡ length indices.now }
    ensures { vals.new ≡ offsetted map.now indices.now offset signs.now vals.old }
{
    kernels::coinravel_kernel_offset_values(map, indices, offset, signs, vals);
}

#[unsafe(no_mangle)]
pub extern "C" fn coinravel_kernel_spoiled_factor(
    n: usize,
    colptr: &[u32],
    rowval: &[u32],
    etree: &[u32],
    lnz: &[u32],
    work: &mut [u32],
    counts: &mut [u32],
    parents: &mut [u32],
) -> bool
    requires { Testable n colptr.now work.old counts.old parents.old }
    ensures { result ≡ spoiled_factor n (length rowval.now) (matrix colptr.now rowval.now []) etree.now lnz.now }
{
    kernels::coinravel_kernel_spoiled_factor(n, colptr, rowval, etree, lnz, work, counts, parents)
}

// Answers whether all rows are done; words are the next row, or that of the zero pivot, inertia and shifts. C has no enum for them.
#[unsafe(no_mangle)]
pub extern "C" fn coinravel_kernel_numeric(
    colptr: &[u32],
    rowval: &[u32],
    nzval: &[f64],
    etree: &[u32],
    lnz: &[u32],
    dsigns: &[i8],
    on: bool,
    eps: f64,
    delta: f64,
    lp: &mut [u32],
    li: &mut [u32],
    lx: &mut [f64],
    d: &mut [f64],
    dinv: &mut [f64],
    next: &mut [u32],
    order: &mut [u32],
    marks: &mut [u8],
    y: &mut [f64],
    words: &mut [usize],
) -> bool
    requires prepared { Prepared (matrix colptr.now rowval.now nzval.now) etree.now lnz.now (tables lp.old li.old lx.old d.old dinv.old) next.old order.old marks.old }
    requires signed { Signed (length etree.now) dsigns.now y.old }
    requires in_bounds { 3 ≤ length words.old }
    ensures { Told (finished (length etree.now) (whole (length etree.now) (matrix colptr.now rowval.now nzval.now) etree.now dsigns.now (settings on eps delta))) (tables_of (length etree.now) (matrix colptr.now rowval.now nzval.now) (whole (length etree.now) (matrix colptr.now rowval.now nzval.now) etree.now dsigns.now (settings on eps delta)) (tables lp.old li.old lx.old d.old dinv.old)) result words.old words.new (tables lp.new li.new lx.new d.new dinv.new) }
{
    kernels::coinravel_kernel_numeric(
        colptr, rowval, nzval, etree, lnz, dsigns, on, eps, delta, lp, li, lx, d, dinv, next,
        order, marks, y, words,
    )
}

#[unsafe(no_mangle)]
pub extern "C" fn coinravel_kernel_logical(
    colptr: &[u32],
    rowval: &[u32],
    nzval: &[f64],
    etree: &[u32],
    lnz: &[u32],
    lp: &mut [u32],
    li: &mut [u32],
    lx: &mut [f64],
    d: &mut [f64],
    dinv: &mut [f64],
    next: &mut [u32],
    order: &mut [u32],
    marks: &mut [u8],
)
    requires { Prepared (matrix colptr.now rowval.now nzval.now) etree.now lnz.now (tables lp.old li.old lx.old d.old dinv.old) next.old order.old marks.old }
    ensures { tables lp.new li.new lx.new d.new dinv.new ≡ logical_tables (length etree.now) (matrix colptr.now rowval.now nzval.now) (tables lp.old li.old lx.old d.old dinv.old) }
{
    kernels::coinravel_kernel_logical(
        colptr, rowval, nzval, etree, lnz, lp, li, lx, d, dinv, next, order, marks,
    );
}
