// How the programs print lists.
#![tactic(auto)]

use std::fmt;

// The numbers, a space before each.
#[derive(Clone, Copy, Debug)]
pub struct Numbers<'a>(pub &'a [u32]);

impl fmt::Display for Numbers<'_> {
    fn fmt<W: fmt::Write>(&self, f: &mut fmt::Formatter<W>) -> fmt::Result {
        for x in self.0 {
            write!(f, " {x}")?;
        }
        Ok(())
    }
}

// The whole number below 1,000 that x is, where it is one of them.
fn whole(x: f64) -> Option<u32> {
    (0..1000).find(|k| f64::from(*k) == x)
}

// The values, a space before each, and a question mark for one that is no whole number below 1,000.
#[derive(Clone, Copy, Debug)]
pub struct Values<'a>(pub &'a [f64]);

impl fmt::Display for Values<'_> {
    fn fmt<W: fmt::Write>(&self, f: &mut fmt::Formatter<W>) -> fmt::Result {
        for x in self.0 {
            match whole(*x) {
                Some(k) => write!(f, " {k}")?,
                None => f.write_str(" ?")?,
            }
        }
        Ok(())
    }
}
