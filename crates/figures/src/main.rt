// The figures of document 01, one line each, and its edits.
#![tactic(auto)]

mod edits;
mod largest;
mod matrices;
mod pivots;
mod solves;

use std::io;

fn main(rt: HostRuntime) -> io::Result<()> {
    matrices::arrow(&rt)?;
    matrices::orderings(&rt)?;
    matrices::smallest(&rt)?;
    matrices::oblong(&rt)?;
    solves::pair(&rt)?;
    pivots::pairs(&rt)?;
    pivots::single(&rt)?;
    largest::band(&rt)?;
    matrices::too_large(&rt)?;
    edits::repeated(&rt)
}
