// A royalty pool shared by three pictures, the arrow of document 01: each step and each refusal in words.
#![tactic(auto)]

use analysis::Tables;
use csc::CscMatrix;
use qdldl::Status;
use say::Numbers;
use std::io;

// Analyses the matrix of three pictures in the order given, and says what came of it.
fn analyse(rt: &impl Print, a: &CscMatrix<'_>, perm: &[u32]) -> io::Result<()> {
    let mut out = Tables {
        pc: &mut [0; 4],
        pr: &mut [0; 5],
        pv: &mut [0.0; 5],
        map: &mut [0; 5],
        etree: &mut [0; 3],
        lnz: &mut [0; 3],
        dsigns: &mut [0; 3],
    };
    let answer = Status::empty().analyse(
        3,
        3,
        a,
        perm,
        &[1; 3],
        &mut out,
        &mut [0; 3],
        &mut [0; 3],
        &mut [0; 3],
    );
    match answer {
        Err(refused) => println!(rt; "  {refused}"),
        Ok(_) => {
            println!(rt; "  reordered pointers{}", Numbers(out.pc))?;
            println!(rt; "  reordered rows{}", Numbers(out.pr))?;
            println!(rt; "  where each entry went{}", Numbers(out.map))?;
            println!(rt; "  parents, 4294967295 for none{}", Numbers(out.etree))?;
            println!(rt; "  rows in each column of L{}", Numbers(out.lnz))
        }
    }
}

fn main(rt: HostRuntime) -> io::Result<()> {
    let pool = CscMatrix {
        colptr: &[0, 1, 3, 5],
        rowval: &[0, 0, 1, 0, 2],
        nzval: &[4.0, 1.0, 3.0, 2.0, 5.0],
    };
    println!(rt;
        "Three pictures share a pool. The matrix by its upper triangle: pointers{}",
        Numbers(pool.colptr)
    )?;
    println!(rt; "  the rows of the last column{}", Numbers(pool.rows(2)))?;

    println!(rt; "Strike the pictures out in the order 0 1 2:")?;
    analyse(&rt, &pool, &[0, 1, 2])?;
    println!(rt; "Strike them out in the order 2 1 0:")?;
    analyse(&rt, &pool, &[2, 1, 0])?;
    println!(rt; "An order that names a picture twice, 1 1 0:")?;
    analyse(&rt, &pool, &[1, 1, 0])?;
    println!(rt; "A licence has run out, and its column has no entry:")?;
    let gone = CscMatrix {
        colptr: &[0, 1, 1, 3],
        rowval: &[0, 0, 2],
        nzval: &[4.0, 2.0, 5.0],
    };
    analyse(&rt, &gone, &[0, 1, 2])
}
