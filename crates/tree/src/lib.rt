// The elimination tree: parents and column counts, as striking the unknowns out gives them.
// work, lnz and etree come one by one: three words at a call, of which a type of their own would say no more.
#![tactic(auto)]

ghost use Rattle.std.specs.Prelude.{◌≡◌, ◌+◌, ◌<◌, ◌^◌, length};
ghost use Rattle.desk.specs.Lists.{total};
ghost use Rattle.tree.specs.Tree.{Upper, Treed};
ghost use Rattle.tree.specs.Marks.{Setting, Visitable, Visited, Start, Climbed, Next, Struck};

use csc::CscMatrix;
use desk::{fill, wide};

// No parent; as a mark, no row yet. A number, since the tables are the caller's, and C's.
const NONE: u32 = 4294967295;

// Marks i, gives its column row j, and answers its parent, which is j where there was none. Where L is full the parent is the next
// unknown: asked for first, it is known without waiting for the table.
fn visit(i: usize, j: u32, work: &mut [u32], lnz: &mut [u32], etree: &mut [u32]) -> usize
    requires { Visitable i work.old lnz.old etree.old }
    ensures { Visited i j work.old work.new lnz.old lnz.new etree.old etree.new result }
{
    let next = i + 1;
    let parent = etree[i];
    work[i] = j;
    lnz[i] += 1;
    if wide(parent) == next {
        return next;
    }
    if parent == NONE {
        etree[i] = j;
        return wide(j);
    }
    wide(parent)
}

// Goes from an entry of row j up by parents, as far as an unknown that is marked.
fn climb(start: usize, j: u32, work: &mut [u32], lnz: &mut [u32], etree: &mut [u32])
    requires { (s : Setting) × Start s start j work.old lnz.old etree.old }
    ensures { (s : Setting) → Start s start j work.old lnz.old etree.old → Climbed s start j work.old work.new lnz.new etree.new }
{
    let mut i = start;
    while work[i] != j {
        i = visit(i, j, &mut *work, &mut *lnz, &mut *etree);
    }
}

// Gives row j to each column that lists it: from each entry of j's column up to what is marked.
fn strike_column(rows: &[u32], j: usize, work: &mut [u32], lnz: &mut [u32], etree: &mut [u32])
    requires { (s : Setting) × Next s j rows.now work.old lnz.old etree.old }
    ensures { (s : Setting) → Next s j rows.now work.old lnz.old etree.old → Struck s (j + 1) work.new lnz.new etree.new }
{
    let mark = j as u32;
    work[j] = mark;
    for row in rows {
        climb(wide(*row), mark, &mut *work, &mut *lnz, &mut *etree);
    }
}

// Writes the parent of each unknown of a to the front of etree, and how many rows its column of L lists to the front of lnz. work is scratch.
pub fn etree(n: usize, a: &CscMatrix<'_>, work: &mut [u32], lnz: &mut [u32], etree: &mut [u32])
    requires { Upper n a.now.colptr.now a.now.rowval.now work.old lnz.old etree.old }
    ensures { Treed n a.now.colptr.now a.now.rowval.now lnz.old lnz.new etree.old etree.new }
{
    fill(&mut *work, n, NONE);
    fill(&mut *lnz, n, 0);
    fill(&mut *etree, n, NONE);
    for j in 0..n {
        strike_column(a.rows(j), j, &mut *work, &mut *lnz, &mut *etree);
    }
}

// The sum of the counts: how many entries L has.
pub fn sum(lnz: &[u32]) -> usize
    requires { length lnz.now < 2 ^ 32 }
    ensures { result ≡ total lnz.now }
{
    lnz.iter().map(|count| wide(*count)).sum()
}
