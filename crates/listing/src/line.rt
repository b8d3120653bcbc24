//! A line of a listing.
use base::refusal::Refusal;
use base::units::{Parts, Units};
use classes::name::Name;

/// What came of an event that was not refused: an accepted submission, a turn with its class, cost and start tag, or the work of a pulse or a closing.
#[derive(Clone, Copy)]
pub enum Outcome {
    Accepted,
    Granted { name: Name, cost: u32, start: Parts },
    Charged(Units),
}

/// An event by its letter with what came of it, or a class with what it was charged.
#[derive(Clone, Copy)]
pub enum Line {
    Event {
        letter: char,
        outcome: Result<Outcome, Refusal>,
    },
    Class {
        name: Name,
        charges: Units,
    },
}
