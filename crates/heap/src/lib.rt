//! A tag store by binary heaps, one for each group.
#![tactic(auto)]

mod heaps;
mod standings;
mod store;

pub use crate::store::HeapStore;
