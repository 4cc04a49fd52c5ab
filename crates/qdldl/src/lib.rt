// The status and the public calls.
#![tactic(auto)]

ghost use Rattle.std.specs.Prelude.{◌≡◌, cond, [], ◌∷◌};
ghost use Rattle.csc.specs.Csc.{lent};
ghost use Rattle.analysis.specs.Analysis.{analysis_lent};
ghost use Rattle.analysis.specs.Lent.{tables_of, SameTables};
ghost use Rattle.qdldl.specs.Analysing.{analysis};
ghost use Rattle.qdldl.specs.Calls.{empty, Settles, is_empty, nnz_a, nnz_l, positive_inertia, regularize_count};

use analysis::Tables;
use csc::CscMatrix;
use desk::Refusal;
use std::error::Error;
use std::fmt;

#[derive(Clone, Copy, Debug, PartialEq, Eq)]
pub enum Phase {
    Empty,
    Analysed,
    Logical,
    Numeric,
    Failed,
}

// The order, the entries, the length of L, the pivots above zero and the shifts.
#[derive(Clone, Copy, Debug, PartialEq, Eq)]
pub struct Status {
    pub phase: Phase,
    pub n: usize,
    pub m: usize,
    pub nnzl: usize,
    pub inertia: usize,
    pub shifts: usize,
}

// A refusal, and the status that it leaves.
#[derive(Clone, Copy, Debug, PartialEq, Eq)]
pub struct Refused {
    pub refusal: Refusal,
    pub status: Status,
}

// The refusal by its number and in words.
impl fmt::Display for Refused {
    fn fmt<W: fmt::Write>(&self, f: &mut fmt::Formatter<W>) -> fmt::Result {
        let number = u8::from(self.refusal);
        let words = self.refusal;
        write!(f, "refused {number}, {words}")
    }
}

impl Error for Refused {}

// What a call answers: the next status, or a refusal.
pub type Answer = Result<Status, Refused>;

// x, but 0 on Empty.
fn read_out(phase: Phase, x: usize) -> usize
    ensures { result ≡ cond (is_empty phase) 0 x }
{
    if phase == Phase::Empty { 0 } else { x }
}

impl Status {
    // The status before any call.
    pub fn empty() -> Status
        ensures { result ≡ empty }
    {
        Status {
            phase: Phase::Empty,
            n: 0,
            m: 0,
            nnzl: 0,
            inertia: 0,
            shifts: 0,
        }
    }

    // The entries of the matrix, 0 on Empty.
    pub fn nnzA(self) -> usize
        ensures { result ≡ nnz_a self }
    {
        read_out(self.phase, self.m)
    }

    // The entries of L, 0 on Empty.
    pub fn nnzL(self) -> usize
        ensures { result ≡ nnz_l self }
    {
        read_out(self.phase, self.nnzl)
    }

    // The pivots above zero, 0 on Empty.
    pub fn positive_inertia(self) -> usize
        ensures { result ≡ positive_inertia self }
    {
        read_out(self.phase, self.inertia)
    }

    // The pivots that were shifted, 0 on Empty.
    pub fn regularize_count(self) -> usize
        ensures { result ≡ regularize_count self }
    {
        read_out(self.phase, self.shifts)
    }

    // Analysis, from any status.
    #[tactic(auto, unfolding(crate::specs::Analysing::analysis, crate::specs::Calls::settled))]
    pub fn analyse(
        self,
        nrows: usize,
        n: usize,
        a: &CscMatrix<'_>,
        perm: &[u32],
        signs: &[i8],
        out: &mut Tables<'_>,
        iperm: &mut [u32],
        next: &mut [u32],
        work: &mut [u32],
    ) -> Answer
        ensures settles { Settles (analysis self (analysis_lent nrows n (lent a.now) perm.now signs.now (tables_of out.old) (iperm.old ∷ next.old ∷ work.old ∷ []))) result (tables_of out.new) }
        ensures same { SameTables out.old out.new }
    {
        analysis::judge(
            nrows,
            n,
            a,
            perm,
            signs,
            &out.read(),
            &mut *iperm,
            &next[..],
            &work[..],
        )
        .map_err(|refusal| Refused {
            refusal,
            status: self,
        })?;
        let inverse = &iperm[..n];
        let nnzl = analysis::compute(
            a, perm, signs, out.pc, out.pr, out.pv, out.map, out.etree, out.lnz, out.dsigns,
            inverse, next, work,
        );
        Ok(Status {
            phase: Phase::Analysed,
            n,
            m: a.rowval.len(),
            nnzl,
            inertia: 0,
            shifts: 0,
        })
    }
}
