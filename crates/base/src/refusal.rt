//! Why a call is refused: one list for every layer.
ghost use Rattle.std.specs.Prelude.{◌≡◌, Some};
ghost use Rattle.base.specs.Numbers.{number, message};

use std::fmt;

/// A refusal. It returns its number and alters nothing.
#[derive(Clone, Copy, PartialEq, Eq, Debug)]
pub enum Refusal {
    UnknownClass = 1,
    NotALeaf = 2,
    BadCost = 3,
    LaneMismatch = 4,
    ShelfFull = 5,
    TurnOpen = 6,
    NothingBacklogged = 7,
    LimitReached = 8,
    WrongGrant = 9,
    NoStoppingPoint = 10,
    TreeFull = 11,
    UnknownParent = 12,
    BadWeight = 13,
    BadName = 14,
    NameTaken = 15,
    TooDeep = 16,
    BadOutage = 17,
    BadRate = 18,
    TraceTooLong = 19,
    BadFirstLine = 20,
    BadLine = 21,
    OutOfPlace = 22,
}

impl Refusal {
    /// The number that listings and faults print.
    pub fn number(self) -> u8
        ensures { result ≡ number self }
    {
        self as u8
    }

    /// What is wrong, for a person.
    pub fn message(self) -> &'static str
        ensures { result.now ≡ message self }
    {
        match self {
            Refusal::UnknownClass => "no such class",
            Refusal::NotALeaf => "the class has children, so it takes no items",
            Refusal::BadCost => "the cost is not from 1 to 65535",
            Refusal::LaneMismatch => "the shelf does not hold what the tree counts",
            Refusal::ShelfFull => "all places of the shelf hold items",
            Refusal::TurnOpen => "a turn is open",
            Refusal::NothingBacklogged => "no item waits",
            Refusal::LimitReached => "the meter or the turns are used up",
            Refusal::WrongGrant => "the grant is not the open turn's",
            Refusal::NoStoppingPoint => "the item may not stop here",
            Refusal::TreeFull => "64 classes stand already",
            Refusal::UnknownParent => "no such parent",
            Refusal::BadWeight => "the weight is not from 1 to 16",
            Refusal::BadName => "the name is not 1 to 8 of a to z and 0 to 9",
            Refusal::NameTaken => "the name is taken",
            Refusal::TooDeep => "the parent is at depth 7 already",
            Refusal::BadOutage => "the outage is empty, early, too late or the 17th",
            Refusal::BadRate => "the rate is not from 1 to 65535",
            Refusal::TraceTooLong => "the trace has more than 32768 bytes",
            Refusal::BadFirstLine => "the first line is not a trace's",
            Refusal::BadLine => "the line has a wrong form",
            Refusal::OutOfPlace => "the line is out of its part",
        }
    }
}

impl fmt::Display for Refusal {
    ghost output = { λ e. Some (message e) };

    fn fmt<W: fmt::Write>(&self, f: &mut fmt::Formatter<W>) -> fmt::Result {
        let text = self.message();
        write!(f, "{text}")
    }
}
