// The analysis: its refusals in their order, and the tables of an accepted one.
#![tactic(auto)]

ghost use Rattle.std.specs.Prelude.{◌≡◌, [], ◌∷◌, ◌≤◌, pos, length, replicate};
ghost use Rattle.desk.specs.Lists.{over};
ghost use Rattle.csc.specs.Csc.{matrix, lent};
ghost use Rattle.analysis.specs.Lent.{tables_of, read_of};
ghost use Rattle.analysis.specs.Analysis.{written, analysis_lent, bad_lengths, new_signs};
ghost use Rattle.analysis.specs.Steps.{Judged, SignsFit, Computable, Computed};

use csc::CscMatrix;
use desk::Refusal;

// What the analysis writes: the reordered triangle, where each entry went, parents, counts and signs.
#[derive(Drop)]
pub struct Tables<'a> {
    pub pc: &'a mut [u32],
    pub pr: &'a mut [u32],
    pub pv: &'a mut [f64],
    pub map: &'a mut [u32],
    pub etree: &'a mut [u32],
    pub lnz: &'a mut [u32],
    pub dsigns: &'a mut [i8],
}

// The same, only read.
#[derive(Clone, Copy, Debug)]
pub struct TablesRef<'a> {
    pub pc: &'a [u32],
    pub pr: &'a [u32],
    pub pv: &'a [f64],
    pub map: &'a [u32],
    pub etree: &'a [u32],
    pub lnz: &'a [u32],
    pub dsigns: &'a [i8],
}

impl Tables<'_> {
    // The tables to be read.
    pub fn read(&self) -> TablesRef<'_>
        ensures { read_of result ≡ tables_of self.now }
    {
        TablesRef {
            pc: &self.pc[..],
            pr: &self.pr[..],
            pv: &self.pv[..],
            map: &self.map[..],
            etree: &self.etree[..],
            lnz: &self.lnz[..],
            dsigns: &self.dsigns[..],
        }
    }
}

// Refusal 4, BadLength, in the analysis.
fn bad_lengths(
    n: usize,
    a: &CscMatrix<'_>,
    perm: &[u32],
    signs: &[i8],
    out: &TablesRef<'_>,
    iperm: &[u32],
    next: &[u32],
    work: &[u32],
) -> bool
    requires { n ≤ 2048 }
    ensures { result ≡ bad_lengths (analysis_lent 0 n (lent a.now) perm.now signs.now (read_of out.now) (iperm.now ∷ next.now ∷ work.now ∷ [])) }
{
    let m = a.rowval.len();
    (a.colptr.len() != n + 1)
        | (a.nzval.len() != m)
        | (perm.len() != n)
        | (signs.len() != 0) & (signs.len() != n)
        | (out.pc.len() < n + 1)
        | (out.pr.len() < m)
        | (out.pv.len() < m)
        | (out.map.len() < m)
        | (out.etree.len() < n)
        | (out.lnz.len() < n)
        | (out.dsigns.len() < n)
        | desk::short_scratch(n, iperm, next, work)
}

// The analysis's refusals in their order. Where none applies the front of iperm is the inverse ordering. Scratch comes as three lists,
// since a part of iperm is read while the others are written.
#[tactic(auto, unfolding(crate::specs::Analysis::analysis_refusals, crate::specs::Analysis::bad_lengths, desk::specs::Desk::first))]
pub fn judge(
    nrows: usize,
    n: usize,
    a: &CscMatrix<'_>,
    perm: &[u32],
    signs: &[i8],
    out: &TablesRef<'_>,
    iperm: &mut [u32],
    next: &[u32],
    work: &[u32],
) -> Result<(), Refusal>
    ensures { Judged (analysis_lent nrows n (lent a.now) perm.now signs.now (read_of out.now) (iperm.old ∷ next.now ∷ work.now ∷ [])) result iperm.old iperm.new }
{
    if nrows != n {
        return Err(Refusal::IncompatibleDimension);
    }
    if desk::bad_size(n, a.rowval.len()) {
        return Err(Refusal::BadSize);
    }
    if bad_lengths(n, a, perm, signs, out, &iperm[..], next, work) {
        return Err(Refusal::BadLength);
    }
    if a.malformed_matrix(n) {
        return Err(Refusal::MalformedMatrix);
    }
    if a.not_upper_triangular(n) {
        return Err(Refusal::NotUpperTriangular);
    }
    if a.empty_column(n) {
        return Err(Refusal::EmptyColumn);
    }
    if a.unsorted_column(n) {
        return Err(Refusal::UnsortedColumn);
    }
    if !order::invperm(perm, iperm) {
        return Err(Refusal::InvalidPermutation);
    }
    if desk::bad_signs(signs) {
        return Err(Refusal::BadSign);
    }
    Ok(())
}

// Writes the signs in the new order.
fn permuted_signs(perm: &[u32], signs: &[i8], dsigns: &mut [i8])
    requires { SignsFit perm.now signs.now dsigns.old }
    ensures { dsigns.new ≡ over (new_signs (length perm.now) perm.now signs.now) dsigns.old }
{
    if signs.is_empty() {
        desk::fill(dsigns, perm.len(), 1);
    } else {
        order::permute(dsigns, signs, perm);
    }
}

// Writes the tables of an accepted analysis, and answers the length of L. iperm is the inverse ordering; next and work are scratch.
// The tables come one by one, since the triangle among them is read while others are written, which the borrow checker covers only so.
// Not inlined: in one function with the tests, the walk up the tree has too few registers.
#[inline(never)]
pub fn compute(
    a: &CscMatrix<'_>,
    perm: &[u32],
    signs: &[i8],
    pc: &mut [u32],
    pr: &mut [u32],
    pv: &mut [f64],
    map: &mut [u32],
    etree: &mut [u32],
    lnz: &mut [u32],
    dsigns: &mut [i8],
    iperm: &[u32],
    next: &mut [u32],
    work: &mut [u32],
) -> usize
    requires { Computable (lent a.now) perm.now signs.now (written (matrix pc.old pr.old pv.old) map.old etree.old lnz.old dsigns.old) iperm.now next.old work.old }
    ensures { Computed (lent a.now) perm.now signs.now (written (matrix pc.old pr.old pv.old) map.old etree.old lnz.old dsigns.old) (written (matrix pc.new pr.new pv.new) map.new etree.new lnz.new dsigns.new) result }
{
    let n = perm.len();
    let m = a.rowval.len();
    reorder::permute_symmetric(a, iperm, &mut *pc, &mut *pr, &mut *pv, &mut *map, next);
    let triangle = CscMatrix {
        colptr: &pc[..n + 1],
        rowval: &pr[..m],
        nzval: &pv[..m],
    };
    tree::etree(n, &triangle, work, &mut *lnz, &mut *etree);
    permuted_signs(perm, signs, dsigns);
    tree::sum(&lnz[..n])
}
