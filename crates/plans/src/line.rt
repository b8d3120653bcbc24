//! The lines of an input.

/// A line: the rate of the link, an outage of it, or the cost of the item.
#[derive(Clone, Copy, PartialEq, Eq, Debug)]
pub enum Line {
    Link { rate: u32 },
    Outage { offset: u32, length: u32 },
    Item { cost: u32 },
}
