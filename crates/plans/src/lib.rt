//! What an input sets up: a link, and an item to play on it.
#![tactic(auto)]

pub mod fault;
pub mod lex;
pub mod line;
pub mod link;
pub mod read;
pub mod stage;
