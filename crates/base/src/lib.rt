//! Units of work, parts of tags, weights, words, and the refusals of every layer.
#![tactic(auto)]

pub mod refusal;
pub mod units;
pub mod weight;
pub mod words;
