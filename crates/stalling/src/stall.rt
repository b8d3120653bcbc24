//! From an input to what is printed.
ghost use Rattle.std.specs.Prelude.{IfOk, string_bytes};
ghost use Rattle.stalling.specs.Listings.{Prints};

use crate::play::play;
use plans::read::read;
use std::alloc::{AllocError, Global};

/// Plays the item of the input on its link, and tells each draw; or tells the first fault.
pub fn stall(heap: Global, input: &[u8]) -> Result<String, AllocError>
    ensures { IfOk result (λ out. Prints input.now (string_bytes out)) }
{
    match read(input) {
        Ok(mut plan) => play(heap, &mut plan.link, plan.cost)?.listing(heap),
        Err(fault) => format!(in heap; "{fault}\n"),
    }
}
