//! The parts of a trace, in their order.
ghost use Rattle.std.specs.Prelude.{◌≡◌};
ghost use Rattle.trace.specs.Parts.{part, may_follow};

use text::line::Line;

/// After the first line: the classes, then the one line of the link, then the outages, then the events.
#[derive(Clone, Copy, PartialEq, Eq, PartialOrd, Ord, Debug)]
pub(crate) enum Part {
    Classes,
    Link,
    Outages,
    Events,
}

/// The part that a line belongs to.
impl From<&Line<'_>> for Part {
    ghost from_gives = { λ l p. p ≡ part l.now };

    fn from(line: &Line<'_>) -> Part {
        match line {
            Line::Class { .. } => Part::Classes,
            Line::Link { .. } => Part::Link,
            Line::Outage { .. } => Part::Outages,
            Line::Event(_) => Part::Events,
        }
    }
}

impl Part {
    /// Whether a line of this part may stand after one of an earlier line's part: of no later part, and no second link.
    pub(crate) fn may_follow(self, earlier: Part) -> bool
        ensures { result ≡ may_follow self earlier }
    {
        earlier < self || (earlier == self && self != Part::Link)
    }
}
