//! A tag store by one sorted list.
#![tactic(auto)]

mod entry;
mod store;

pub use crate::store::SortedStore;
