//! The lines of a text that are still to come.
pub mod steps;

/// The lines of a text after its first, in order.
#[derive(Clone, Copy)]
pub struct Lines<'a> {
    rest: &'a [u8],
}
