//! Items in lanes over the caller's memory.
#![tactic(auto)]

pub mod shelf;
mod table;
