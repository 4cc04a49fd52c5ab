// The largest matrix: a band of 2,048 columns with 65,536 entries.
ghost use Rattle.std.specs.Prelude.{◌≤◌, length};

use crate::matrices::analysed;
use analysis::Tables;
use csc::CscMatrix;
use std::io;

// The first row of column c: a column has 32 rows, from 1,552 on 33, and none above row 0.
fn first_row(c: usize) -> usize
    ensures { result ≤ c }
{
    let above = if c < 1552 { 31 } else { 32 };
    if c < above { 0 } else { c - above }
}

// Writes the pointers and the rows of the band, entry by entry.
fn write_band(colptr: &mut [u32], rowval: &mut [u32])
    requires colptr_len_bound { length colptr.old ≤ 2049 }
    requires rowval_len_bound { length rowval.old ≤ 65536 }
{
    let mut c: usize = 0;
    let mut r: usize = 0;
    for k in 0..rowval.len() {
        rowval[k] = r as u32;
        if r < c {
            r += 1;
        } else {
            c += 1;
            if colptr.len() <= c {
                return;
            }
            colptr[c] = (k + 1) as u32;
            r = first_row(c);
        }
    }
}

// Writes the ordering that changes nothing.
fn write_identity(perm: &mut [u32])
    requires { length perm.old ≤ 2048 }
{
    for (i, place) in perm.iter_mut().enumerate() {
        *place = i as u32;
    }
}

// Analyses the band, and says its refusal or that it is accepted.
pub fn band(rt: &impl Print) -> io::Result<()> {
    let mut colptr = [0u32; 2049];
    let mut rowval = [0u32; 65536];
    let nzval = [1f64; 65536];
    let mut perm = [0u32; 2048];
    write_band(&mut colptr, &mut rowval);
    write_identity(&mut perm);
    let band = CscMatrix {
        colptr: &colptr,
        rowval: &rowval,
        nzval: &nzval,
    };
    let mut out = Tables {
        pc: &mut [0; 2049],
        pr: &mut [0; 65536],
        pv: &mut [0.0; 65536],
        map: &mut [0; 65536],
        etree: &mut [0; 2048],
        lnz: &mut [0; 2048],
        dsigns: &mut [0; 2048],
    };
    print!(rt; "n=2,048 and m=65,536: ")?;
    match analysed(2048, 2048, &band, &perm, &mut out) {
        Err(refused) => println!(rt; "{refused}"),
        Ok(_) => println!(rt; "accepted"),
    }
}
