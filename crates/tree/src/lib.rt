//! A class tree, its grants, and its five calls.
#![tactic(auto)]

pub mod load;
pub mod phase;
pub mod queue;
pub mod tree;
