//! The words, numbers and lines of a trace.
#![tactic(auto)]

pub mod header;
pub mod kind;
pub mod line;
pub mod lines;
pub mod read;
pub mod word;
