// Replays the vectors on standard input, and says how many of them differ.
#![tactic(auto)]

mod analyses;
mod edits;
mod field;
mod page;
mod solves;
mod tally;
mod word;

use field::{ROOM, read_one};
use page::{extent, from};
use std::io;
use std::io::{ErrorKind, Read};
use tally::Tally;

// More bytes than the vectors have: no program here takes memory from the heap.
const PAGE: usize = 262144;

// A tally for each part of a vector.
#[derive(Clone, Copy, Debug, Default, PartialEq, Eq)]
struct Tallies {
    analyses: Tally,
    edits: Tally,
    solves: Tally,
}

impl Tallies {
    // The tallies with one vector more, which is replayed.
    fn with(self, vector: &[u8]) -> Self {
        let mut map = [0u32; ROOM];
        let mut vals = [0f64; ROOM];
        let analysed = analyses::replay(vector, &mut map, &mut vals);
        let edited = edits::replay(vector, &map, &mut vals);
        Self {
            analyses: self.analyses.with(analysed),
            edits: self.edits.with(edited),
            solves: self.solves.with(solves::replay(vector)),
        }
    }
}

// Replays each vector.
fn replay_all(vectors: &[u8]) -> Tallies {
    let mut rest = vectors;
    let mut tallies = Tallies::default();
    while !rest.is_empty() {
        let (vector, others) = rest.split_at(extent(rest, b"n"));
        tallies = tallies.with(vector);
        rest = others;
    }
    tallies
}

// Replays the page, and says what came of it.
fn report(rt: &impl Print, page: &[u8]) -> io::Result<()> {
    let Tallies {
        analyses,
        edits,
        solves,
    } = replay_all(from(page, b"n"));
    let found = analyses.replayed;
    println!(rt; "{found} vectors")?;
    if read_one(page, b"vectors").map(|said| said as u64) != Some(found) {
        println!(rt; "the page says another number of vectors")?;
    }
    println!(rt; "analysis: {analyses}")?;
    println!(rt; "edits: {edits}")?;
    println!(rt; "solve: {solves}")
}

// Reads until the page is full or the input ends, and answers how many bytes came.
fn fill<R: Read>(reader: &mut R, page: &mut [u8]) -> io::Result<usize> {
    let mut n: usize = 0;
    for _ in 0..u64::MAX {
        if page.len() <= n {
            return Ok(n);
        }
        match reader.read(&mut page[n..]) {
            Ok(0) => return Ok(n),
            Ok(more) => n += more,
            Err(error) => {
                if error.kind() != ErrorKind::Interrupted {
                    return Err(error);
                }
            }
        }
    }
    Ok(n)
}

// Reads the page, and reports on it where it fits.
fn main(rt: HostRuntime) -> io::Result<()> {
    let mut page = [0u8; PAGE];
    let n = fill(&mut rt.reader(), &mut page)?;
    if n < PAGE {
        report(&rt, &page[..n])
    } else {
        println!(rt; "the vectors do not fit")
    }
}
