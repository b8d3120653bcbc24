//! A listing that is being written.

pub mod write;

use std::alloc::AllocError;

/// The text of the lines so far, or the error that memory was wanting for one of them.
#[derive(Drop)]
pub struct Listing {
    text: Result<String, AllocError>,
}
