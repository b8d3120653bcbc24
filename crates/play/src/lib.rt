//! Playing a trace: the events are the calls of one history on a tree, and the listing tells them.
#![tactic(auto)]

mod charges;
pub mod cost;
pub mod play;
mod player;
