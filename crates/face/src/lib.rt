// The C face of the calls, which `face_c` exports; include/coinravel.h says the same in C. Lists, numbers and words are those of C, and each
// stands by itself.
#![tactic(auto)]

ghost use Rattle.std.specs.Prelude.{◌≤◌, ◌≡◌, [], ◌∷◌, length, get_or};
ghost use Rattle.desk.specs.Desk.{values_of};
ghost use Rattle.desk.specs.Lists.{over};
ghost use Rattle.csc.specs.Csc.{matrix};
ghost use Rattle.analysis.specs.Analysis.{written, analysis_lent};
ghost use Rattle.face.specs.Face.{word_of, phase_of, status_of, words_of, Faces, faced};

use analysis::Tables;
use csc::CscMatrix;
use desk::Refusal;
use qdldl::{Phase, Refused, Status};

// The words of a status.
const STATUS_WORDS: usize = 6;

// The phase that a word says. No `From`, here and below: types and words are another crate's, which knows nothing of the words of C.
#[tactic(auto, unfolding(crate::specs::Face::phase_of))]
fn phase_of(word: u64) -> Phase
    ensures { result ≡ phase_of word }
{
    match word {
        1 => Phase::Analysed,
        2 => Phase::Logical,
        3 => Phase::Numeric,
        4 => Phase::Failed,
        _ => Phase::Empty,
    }
}

// The status that six words say.
#[tactic(auto, unfolding(crate::specs::Face::status_of))]
fn status_of(words: &[u64]) -> Status
    requires { 6 ≤ length words.now }
    ensures { result ≡ status_of words.now }
{
    Status {
        phase: phase_of(words[0]),
        n: words[1] as usize,
        m: words[2] as usize,
        nnzl: words[3] as usize,
        inertia: words[4] as usize,
        shifts: words[5] as usize,
    }
}

// Writes a status to the first six words.
#[tactic(auto, unfolding(crate::specs::Face::words_of, desk::specs::Lists::over))]
fn write_status(words: &mut [u64], s: Status)
    requires { 6 ≤ length words.old }
    ensures { words.new ≡ over (words_of s) words.old }
{
    words[..6].copy_from_slice(&[
        s.phase as u64,
        s.n as u64,
        s.m as u64,
        s.nnzl as u64,
        s.inertia as u64,
        s.shifts as u64,
    ]);
}

// A refusal's value, 0 where it has none, as C has no option.
fn value_of(refusal: Refusal) -> u64
    ensures { result ≡ get_or (values_of refusal) 0 0 }
{
    match refusal {
        Refusal::NoRoom(needed) => u64::from(needed),
        Refusal::ZeroPivot(row) => u64::from(row),
        _ => 0,
    }
}

// The analysis. Answers the number, writes the next status to the status words where it is 0, and a refusal's value to value.
pub fn coinravel_analyse(
    status: &mut [u64],
    value: &mut u64,
    nrows: usize,
    n: usize,
    colptr: &[u32],
    rowval: &[u32],
    nzval: &[f64],
    perm: &[u32],
    signs: &[i8],
    pc: &mut [u32],
    pr: &mut [u32],
    pv: &mut [f64],
    map: &mut [u32],
    etree: &mut [u32],
    lnz: &mut [u32],
    dsigns: &mut [i8],
    iperm: &mut [u32],
    next: &mut [u32],
    work: &mut [u32],
) -> u32
    ensures { Faces (faced status.old (analysis_lent nrows n (matrix colptr.now rowval.now nzval.now) perm.now signs.now (written (matrix pc.old pr.old pv.old) map.old etree.old lnz.old dsigns.old) (iperm.old ∷ next.old ∷ work.old ∷ []))) result value.new status.old status.new (written (matrix pc.new pr.new pv.new) map.new etree.new lnz.new dsigns.new) }
{
    if status.len() < STATUS_WORDS {
        *value = 0;
        return u32::from(u8::from(Refusal::BadLength));
    }
    let a = CscMatrix {
        colptr,
        rowval,
        nzval,
    };
    let mut out = Tables {
        pc,
        pr,
        pv,
        map,
        etree,
        lnz,
        dsigns,
    };
    let before = status_of(&status[..]);
    let answer = before.analyse(nrows, n, &a, perm, signs, &mut out, iperm, next, work);
    match answer {
        Ok(after) => {
            write_status(status, after);
            *value = 0;
            0
        }
        Err(Refused { refusal, .. }) => {
            *value = value_of(refusal);
            u32::from(u8::from(refusal))
        }
    }
}
