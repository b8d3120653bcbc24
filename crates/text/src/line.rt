//! The forms of a line.

/// What an event line asks of the tree.
#[derive(Clone, Copy, PartialEq, Eq, Debug)]
pub enum Event<'a> {
    Submit { name: &'a str, cost: u32 },
    Dispatch,
    Pulse,
    End,
    GiveUp,
}

/// A line of a trace after its first.
#[derive(Clone, Copy, PartialEq, Eq, Debug)]
pub enum Line<'a> {
    Class {
        name: &'a str,
        parent: &'a str,
        weight: u32,
    },
    Link {
        rate: u32,
    },
    Outage {
        offset: u32,
        length: u32,
    },
    Event(Event<'a>),
}
