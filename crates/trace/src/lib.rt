//! Reading a trace: its form, its classes, its link and its outages.
#![tactic(auto)]

pub mod error;
pub mod fault;
mod part;
pub mod place;
pub mod reader;
mod reading;
pub mod trace;
