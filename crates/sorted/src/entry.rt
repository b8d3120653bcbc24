//! One class that stands.
use base::units::Parts;
use tags::number::Number;

/// A class with its group and its tag. Entries are ordered by group, then by tag, then by class.
#[derive(Clone, Copy, PartialEq, PartialOrd, Default)]
pub struct Entry {
    pub group: Number,
    pub tag: Parts,
    pub class: Number,
}
