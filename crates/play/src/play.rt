//! From the bytes of a trace to its listing.
ghost use Rattle.std.specs.Prelude.{IfOk, string_bytes};
ghost use Rattle.play.specs.Listings.{Prints};

use crate::cost::OfCost;
use crate::player::list::list;
use items::{Block, Quantum};
use std::alloc::{AllocError, Global};
use text::kind::Kind;
use trace::error::ReadError;
use trace::reader::read;
use trace::trace::Trace;

/// The places of the shelf.
const PLACES: usize = 256;

/// The listing of the trace that the bytes write; or the line of its first fault. The error is that memory was wanting.
pub fn play(heap: Global, text: &[u8]) -> Result<String, AllocError>
    ensures { IfOk result (λ out. Prints text.now (string_bytes out)) }
{
    match read(heap, text) {
        Ok(
            Trace {
                kind,
                draft,
                link,
                events,
            },
        ) => {
            let events = events.as_slice();
            // The array is made at each kind: nothing bounds its size at a type parameter, and lending it as a slice asks for a bound.
            match kind {
                Kind::Quantum => {
                    let mut places = [Quantum::of_cost(0); PLACES];
                    list(heap, draft, link, events, &mut places)
                }
                Kind::Block => {
                    let mut places = [Block::of_cost(0); PLACES];
                    list(heap, draft, link, events, &mut places)
                }
            }
        }
        Err(ReadError::Fault(fault)) => format!(in heap; "{fault}\n"),
        Err(ReadError::NoMemory(error)) => Err(error),
    }
}
