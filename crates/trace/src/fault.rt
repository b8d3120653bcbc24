//! What is wrong with a trace, and where.
use base::refusal::Refusal;

/// Who refuses a line.
#[derive(Clone, Copy, PartialEq, Eq, Debug)]
pub enum Layer {
    Text,
    Tree,
    Link,
}

// The word 0 and the line 0 are no `None`: a fault is written with these numbers, so an `Option` would be made 0 again.

/// A refusal with its layer, and the word of the line that it speaks of: 0 for the whole line.
#[derive(Clone, Copy, PartialEq, Eq, Debug)]
pub struct Misread {
    pub layer: Layer,
    pub word: u8,
    pub refusal: Refusal,
}

/// The same with its line. The first line is 1; the trace as a whole is line 0.
#[derive(Clone, Copy, PartialEq, Eq, Debug)]
pub struct Fault {
    pub line: u32,
    pub misread: Misread,
}
