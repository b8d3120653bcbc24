//! How a line is written.
ghost use Rattle.std.specs.Prelude.{Some};
ghost use Rattle.listing.specs.Lines.{shown as line_bytes, answer as answer_bytes};

use crate::line::{Line, Outcome};
use std::fmt;

impl fmt::Display for Outcome {
    ghost output = { λ o. Some (answer_bytes o) };

    fn fmt<W: fmt::Write>(&self, f: &mut fmt::Formatter<W>) -> fmt::Result {
        match *self {
            Outcome::Accepted => write!(f, " 0"),
            Outcome::Granted { name, cost, start } => write!(f, " 0 {name} {cost} {start}"),
            Outcome::Charged(work) => write!(f, " 0 {work}"),
        }
    }
}

impl fmt::Display for Line {
    ghost output = { λ l. Some (line_bytes l) };

    fn fmt<W: fmt::Write>(&self, f: &mut fmt::Formatter<W>) -> fmt::Result {
        match *self {
            Line::Event {
                letter,
                outcome: Ok(outcome),
            } => write!(f, "{letter}{outcome}"),
            Line::Event {
                letter,
                outcome: Err(refusal),
            } => write!(f, "{letter} {}", refusal.number()),
            Line::Class { name, charges } => write!(f, "s {name} {charges}"),
        }
    }
}
