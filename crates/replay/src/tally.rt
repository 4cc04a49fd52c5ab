// What the replays come to, and how many of them differ.
use std::fmt;

// What a replay comes to: three cases, each by its name.
#[derive(Clone, Copy, Debug, PartialEq, Eq)]
pub enum Outcome {
    Absent,
    Same,
    Differs,
}

// The outcome of a comparison.
impl From<bool> for Outcome {
    fn from(same: bool) -> Outcome {
        if same {
            Outcome::Same
        } else {
            Outcome::Differs
        }
    }
}

// How many were replayed, and how many of these differ.
#[derive(Clone, Copy, Debug, Default, PartialEq, Eq)]
pub struct Tally {
    pub replayed: u64,
    pub differ: u64,
}

impl Tally {
    // The tally with one outcome more.
    pub fn with(self, outcome: Outcome) -> Self {
        let replayed = self.replayed.wrapping_add(1);
        match outcome {
            Outcome::Absent => self,
            Outcome::Same => Self { replayed, ..self },
            Outcome::Differs => Self {
                replayed,
                differ: self.differ.wrapping_add(1),
            },
        }
    }
}

impl fmt::Display for Tally {
    fn fmt<W: fmt::Write>(&self, f: &mut fmt::Formatter<W>) -> fmt::Result {
        let replayed = self.replayed;
        let differ = self.differ;
        write!(f, "{replayed} replayed, {differ} differ")
    }
}
