//! The listing of the events of a trace.
ghost use Rattle.std.specs.Prelude.{min, length, IfOk, string_bytes};
ghost use Rattle.play.specs.Listings.{Lists};

use crate::charges::Charges;
use crate::cost::OfCost;
use crate::player::Player;
use classes::draft::Draft;
use heap::HeapStore;
use links::server::Server;
use listing::listing::Listing;
use shelf::shelf::Shelf;
use std::alloc::{AllocError, Global};
use text::line::Event;
use tree::tree::Tree;

/// Plays the events on a tree of the draft, a shelf in the memory that is lent, and the link.
pub(crate) fn list<I: OfCost, S: Server + Drop>(
    heap: Global,
    draft: Draft,
    link: S,
    events: &[Event<'_>],
    places: &mut [I],
) -> Result<String, AllocError>
    ensures { IfOk result (λ out. Lists I.Item S.Server I.OfCost.item (min (length places.old) 256) draft link events.now (string_bytes out)) }
{
    let tree: Tree<HeapStore, I> = Tree::open(draft);
    let mut player = Player {
        tree,
        shelf: Shelf::new(places),
        link,
        held: None,
        charges: Charges::new(),
    };
    let mut listing = Listing::new(heap);
    player.play(&mut listing, events);
    player.finish(&mut listing);
    player.tell_charges(&mut listing);
    let Player { held, .. } = player;
    match held {
        None => listing.finish(),
        Some(_turn) => unreachable(),
    }
}
