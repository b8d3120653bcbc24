//! The lines of a listing, and how they are written.
#![tactic(auto)]

pub mod line;
pub mod listing;
pub mod show;
