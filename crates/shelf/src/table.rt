//! The plain link table of a shelf: which places each lane has, in order, and which are free.
ghost use Rattle.std.specs.Prelude.{◌≡◌, ◌≤◌, length, sum_by};
ghost use Rattle.shelf.specs.Chains.{Inside, Apart, Ends};

mod calls;

/// A chain of places: its first, its last, and how many it has. With none, its first and last say nothing.
#[derive(Clone, Copy)]
struct Chain {
    head: u16,
    tail: u16,
    len: u16,
}

impl Chain {
    const EMPTY: Chain = Chain {
        head: 0,
        tail: 0,
        len: 0,
    };
}

/// Up to 256 places in 65 chains: lanes 0 to 63, and in the last the free places.
/// Every place stands in one chain, once.
// Places link to one another by number, and not by Box: a shelf lies in its caller's memory and never allocates.
#[derive(Drop)]
pub struct LinkTable {
    // by place: the place behind it in its chain
    next: [u16; 256],
    chains: [Chain; 65],
    size: u16,
    ghost long: { (length next ≡ 256) × (length chains ≡ 65) },
    ghost all: { (size ≤ 256) × (sum_by (λ c. c.len) chains ≡ size) },
    ghost inside: { Inside next chains size },
    ghost apart: { Apart next chains },
    ghost ends: { Ends next chains },
}
