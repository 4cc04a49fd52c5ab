// The figure of the solve.
ghost use Rattle.std.specs.Prelude.{◌≡◌, length};

use csc::CscMatrix;
use say::Values;
use std::io;

// Solves for two unknowns, with x in place of b, and says whether the ordering and the factor passed their tests: what else there is to
// say lies in b.
fn solved(
    perm: &[u32; 2],
    lp: &[u32; 3],
    li: &[u32; 1],
    lx: &[f64; 1],
    dinv: &[f64; 2],
    b: &mut [f64],
) -> bool
    requires { length b.old ≡ 2 }
{
    let l = CscMatrix {
        colptr: lp,
        rowval: li,
        nzval: lx,
    };
    let mut iperm = [0u32; 2];
    let mut x = [0f64; 2];
    if !order::invperm(perm, &mut iperm) {
        return false;
    }
    if solve::spoiled(2, &l) {
        return false;
    }
    solve::solve(perm, &l, dinv, b, &mut x);
    true
}

// The pair whose L is 0.5 and D 4,2.
pub fn pair(rt: &impl Print) -> io::Result<()> {
    let mut b = [6f64, 5.0];
    print!(rt; "[4 2; . 3], right side 6,5: ")?;
    if solved(&[0, 1], &[0, 1, 1], &[1], &[0.5], &[0.25, 0.5], &mut b) {
        println!(rt; "x{}", Values(&b))
    } else {
        println!(rt; "refused")
    }
}
