//! The phase of a tree.

/// No turn is open, or one is: the leaf that it serves, the cost that it was dispatched at, and the work done in it.
// An enum and no `Option`: one match on the phase and the call decides each answer, and reads by the names of the two states.
#[derive(Clone, Copy)]
pub enum Phase {
    Free,
    Open { leaf: u8, cost: u32, done: u32 },
}
