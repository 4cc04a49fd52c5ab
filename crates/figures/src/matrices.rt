// The figures of the analysis.
use analysis::Tables;
use csc::CscMatrix;
use qdldl::{Answer, Status};
use say::Numbers;
use std::io;

// Analyses a matrix, with no signs.
pub fn analysed(
    nrows: usize,
    n: usize,
    a: &CscMatrix<'_>,
    perm: &[u32],
    out: &mut Tables<'_>,
) -> Answer {
    let mut iperm = [0u32; 2048];
    let mut next = [0u32; 2048];
    let mut work = [0u32; 2048];
    Status::empty().analyse(
        nrows,
        n,
        a,
        perm,
        &[],
        out,
        &mut iperm,
        &mut next,
        &mut work,
    )
}

// Analyses a matrix of at most three unknowns and five entries, and says its refusal or its tables.
fn show(
    rt: &impl Print,
    nrows: usize,
    n: usize,
    a: &CscMatrix<'_>,
    perm: &[u32],
) -> io::Result<()> {
    let mut out = Tables {
        pc: &mut [0; 4],
        pr: &mut [0; 5],
        pv: &mut [0.0; 5],
        map: &mut [0; 5],
        etree: &mut [0; 3],
        lnz: &mut [0; 3],
        dsigns: &mut [0; 3],
    };
    match analysed(nrows, n, a, perm, &mut out) {
        Err(refused) => println!(rt; "{refused}"),
        Ok(_) => {
            println!(rt; "accepted")?;
            println!(rt; "  pointers{}", Numbers(out.pc))?;
            println!(rt; "  rows{}", Numbers(out.pr))?;
            println!(rt; "  map{}", Numbers(out.map))?;
            println!(rt; "  parents{}", Numbers(out.etree))?;
            println!(rt; "  counts{}", Numbers(out.lnz))
        }
    }
}

// Says the inverse of an ordering of three.
fn inverse(rt: &impl Print, perm: &[u32; 3]) -> io::Result<()> {
    let mut iperm = [0u32; 3];
    if order::invperm(perm, &mut iperm) {
        println!(rt; "inverse{}", Numbers(&iperm))
    } else {
        println!(rt; "no ordering")
    }
}

// The arrow in two orderings.
pub fn arrow(rt: &impl Print) -> io::Result<()> {
    let arrow = CscMatrix {
        colptr: &[0, 1, 3, 5],
        rowval: &[0, 0, 1, 0, 2],
        nzval: &[1.0; 5],
    };
    print!(rt; "arrow, ordering 0,1,2: ")?;
    show(rt, 3, 3, &arrow, &[0, 1, 2])?;
    print!(rt; "arrow, ordering 2,1,0: ")?;
    show(rt, 3, 3, &arrow, &[2, 1, 0])
}

// Two lists that are no ordering, and the inverse of one that is.
pub fn orderings(rt: &impl Print) -> io::Result<()> {
    let pair = CscMatrix {
        colptr: &[0, 1, 3],
        rowval: &[0, 0, 1],
        nzval: &[1.0; 3],
    };
    print!(rt; "ordering 1,1: ")?;
    show(rt, 2, 2, &pair, &[1, 1])?;
    print!(rt; "ordering 0,0: ")?;
    show(rt, 2, 2, &pair, &[0, 0])?;
    print!(rt; "ordering 2,0,1: ")?;
    inverse(rt, &[2, 0, 1])
}

// The smallest matrix, and one smaller.
pub fn smallest(rt: &impl Print) -> io::Result<()> {
    let one = CscMatrix {
        colptr: &[0, 1],
        rowval: &[0],
        nzval: &[1.0],
    };
    print!(rt; "n=1, one entry: ")?;
    show(rt, 1, 1, &one, &[0])?;
    let none = CscMatrix {
        colptr: &[0],
        rowval: &[],
        nzval: &[],
    };
    print!(rt; "n=0: ")?;
    show(rt, 0, 0, &none, &[])
}

// More columns than rows, and an ordering that is none: the lower number is given.
pub fn oblong(rt: &impl Print) -> io::Result<()> {
    let arrow = CscMatrix {
        colptr: &[0, 1, 3, 5],
        rowval: &[0, 0, 1, 0, 2],
        nzval: &[1.0; 5],
    };
    print!(rt; "2 by 3 with an ordering of 1,1: ")?;
    show(rt, 2, 3, &arrow, &[1, 1])
}

// One unknown too many, and one entry too many.
pub fn too_large(rt: &impl Print) -> io::Result<()> {
    let rowval = [0u32; 65537];
    let one = CscMatrix {
        colptr: &[0, 1],
        rowval: &rowval[..1],
        nzval: &[1.0],
    };
    print!(rt; "n=2,049: ")?;
    show(rt, 2049, 2049, &one, &[0])?;
    let many = CscMatrix {
        rowval: &rowval,
        ..one
    };
    print!(rt; "m=65,537: ")?;
    show(rt, 1, 1, &many, &[0])
}
