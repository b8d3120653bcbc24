//! Film and touch on one drive: whole turns of a tree, and what each class gets.
#![tactic(auto)]

pub mod film;
pub mod report;
pub mod share;
pub mod turn;
