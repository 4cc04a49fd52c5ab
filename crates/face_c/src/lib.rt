// The archive of the C face: its export is its namesake of `face`, with its clauses, since no crate can stand on an archive;
// include/coinravel.h says the same in C.
#![tactic(auto)]

ghost use Rattle.std.specs.Prelude.{[], ◌∷◌};
ghost use Rattle.csc.specs.Csc.{matrix};
ghost use Rattle.analysis.specs.Analysis.{written, analysis_lent};
ghost use Rattle.face.specs.Face.{Faces, faced};

// The analysis. Answers the number, writes the next status to the status words where it is 0, and a refusal's value to value.
#[unsafe(no_mangle)]
pub extern "C" fn coinravel_analyse(
    status: &mut [u64],
    value: &mut u64,
    nrows: usize,
    n: usize,
    colptr: &[u32],
    rowval: &[u32],
    nzval: &[f64],
    perm: &[u32],
    signs: &[i8],
    pc: &mut [u32],
    pr: &mut [u32],
    pv: &mut [f64],
    map: &mut [u32],
    etree: &mut [u32],
    lnz: &mut [u32],
    dsigns: &mut [i8],
    iperm: &mut [u32],
    next: &mut [u32],
    work: &mut [u32],
) -> u32
    ensures { Faces (faced status.old (analysis_lent nrows n (matrix colptr.now rowval.now nzval.now) perm.now signs.now (written (matrix pc.old pr.old pv.old) map.old etree.old lnz.old dsigns.old) (iperm.old ∷ next.old ∷ work.old ∷ []))) result value.new status.old status.new (written (matrix pc.new pr.new pv.new) map.new etree.new lnz.new dsigns.new) }
{
    face::coinravel_analyse(
        status, value, nrows, n, colptr, rowval, nzval, perm, signs, pc, pr, pv, map, etree, lnz,
        dsigns, iperm, next, work,
    )
}
