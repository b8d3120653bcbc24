//! A class tree over any tag store, for items of one kind.
ghost use Rattle.std.specs.Prelude.{◌≡◌, ℕ, ◌+◌, ◌*◌, ◌<◌, ◌≤◌, true};
ghost use Rattle.classes.specs.Tables.{shape_of};
ghost use Rattle.rules.specs.Laws.{Within};
ghost use Rattle.rules.specs.State.{is_open};
ghost use Rattle.tree.specs.Counts.{queued, Counted};
ghost use Rattle.tree.specs.Loads.{load};
ghost use Rattle.tree.specs.States.{tags};
ghost use Rattle.tree.specs.Turns.{turn, serving};

use crate::phase::Phase;
use crate::queue::Queue;
use base::units::Units;
use std::marker::PhantomData;
use tags::TagStore;

pub mod call;
pub mod calls;
pub mod closing;
pub mod opening;
pub mod reading;

/// A tree as opening leaves it and the five calls keep it. No tree exists with a weight outside 1 to 16 (each class has a `Weight`) or a tag
/// above 720,720 times its meter, and the store of every tree holds, under each node's number, exactly its backlogged children with their
/// start tags.
#[derive(Drop)]
pub struct Tree<T: TagStore, I> {
    house: u32,
    queue: Queue<T>,
    phase: Phase,
    meter: Units,
    turns: u64,
    kind: PhantomData<I>,
    // the backlog of each class is what waits in the lanes at and below it, and no lane has more items than a shelf has places
    ghost counted: { Counted (shape_of queue.table) queue.loads },
    ghost few: { (k : ℕ) → queued (shape_of queue.table) queue.loads k ≤ 256 },
    // no tag passes the limit, and the root starts at 0
    ghost tagged: { Within (tags queue.loads) (720720 * meter.0) },
    ghost rooted: { (load queue.loads 0).start.0 ≡ 0 },
    // an open turn serves a leaf that has items, and its cost fits into the meter
    ghost served: { is_open (turn phase) ≡ true → 0 < queued (shape_of queue.table) queue.loads (serving phase).leaf },
    ghost within: { (serving phase).done ≤ (serving phase).cost },
    ghost metered: { meter.0 + (serving phase).cost ≤ 1000000000000 },
    ghost given: { turns ≤ 1000000000000 },
}

/// Leave to serve one turn: only a dispatch makes one. It must be ended or given up, and both use it up: a grant that is not spent cannot be
/// let go.
pub struct Grant {
    house: u32,
    turn: u64,
    // what letting a grant go asks for, so only the two closing calls set it
    spent: bool,
}

impl Drop for Grant {
    fn drop(self)
        requires { self.spent ≡ true }
    {
        let Grant {
            house: _,
            turn: _,
            spent: _,
        } = self;
    }
}

/// What a dispatch answers: the grant, the class served, and the cost of its item.
pub struct Dispatch {
    pub grant: Grant,
    pub class: u8,
    pub cost: u32,
}
