//! The classes of a tree: their names, their table, and the draft that a tree is opened from.
#![tactic(auto)]

pub mod class;
pub mod draft;
pub mod name;
pub mod table;
