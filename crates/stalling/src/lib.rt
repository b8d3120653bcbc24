//! How long a stalling link holds one item.
#![tactic(auto)]

pub mod draw;
pub mod listing;
pub mod play;
pub mod stall;
