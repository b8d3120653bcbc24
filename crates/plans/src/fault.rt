//! What is wrong with an input.
ghost use Rattle.std.specs.Prelude.{◌≡◌, Some};
ghost use Rattle.plans.specs.Faults.{fault_text, wrong_text};

use base::refusal::Refusal;
use std::fmt;

/// A line is refused, or is not there.
#[derive(Clone, Copy, PartialEq, Eq, Debug)]
pub enum Wrong {
    Refused(Refusal),
    NoRate,
    NoItem,
}

/// The first line of an input that is wrong, counted from 1.
#[derive(Clone, Copy, PartialEq, Eq, Debug)]
pub struct Fault {
    pub line: usize,
    pub wrong: Wrong,
}

impl Wrong {
    /// What is wrong, for a person.
    pub fn message(self) -> &'static str
        ensures { result.now ≡ wrong_text self }
    {
        match self {
            Wrong::Refused(refusal) => refusal.message(),
            Wrong::NoRate => "the rate is missing",
            Wrong::NoItem => "the item is missing",
        }
    }
}

impl Fault {
    /// The fault of a line that is refused.
    // no `From`: it takes the line too
    pub(crate) fn refused(line: usize, refusal: Refusal) -> Fault
        ensures { result ≡ record { line = line; wrong = Wrong.Refused refusal } }
    {
        Fault {
            line,
            wrong: Wrong::Refused(refusal),
        }
    }
}

impl fmt::Display for Fault {
    ghost output = { λ x. Some (fault_text x) };

    fn fmt<W: fmt::Write>(&self, f: &mut fmt::Formatter<W>) -> fmt::Result {
        let line = self.line;
        let wrong = self.wrong.message();
        write!(f, "line {line}: {wrong}")
    }
}
