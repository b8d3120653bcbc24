//! A draft becomes a tree.
ghost use Rattle.std.specs.Prelude.{◌≡◌, ℕ, []};
ghost use Rattle.rules.specs.State.{Valid, fresh};
ghost use Rattle.shelf.specs.Lanes.{lanes, room};
ghost use Rattle.shelf.specs.declared.shelf.Shelf.{Shelf};
ghost use Rattle.tree.specs.Trees.{state_of, opening};

use crate::phase::Phase;
use crate::queue::Queue;
use crate::tree::Tree;
use base::units::Units;
use classes::draft::Draft;
use items::Item;
use std::marker::PhantomData;
use tags::TagStore;

impl<T: TagStore, I: Item> Tree<T, I> {
    /// Opens a draft, and uses it up. The tree has an empty store of its own; with an empty shelf it stands before any call.
    pub fn open(draft: Draft) -> Tree<T, I>
        ensures valid { (places w : ℕ) → Valid (opening draft places w) }
        ensures opened { (sh : Shelf I I.Item) (w : ℕ) → ((k : ℕ) → lanes sh k ≡ []) → state_of result sh w ≡ fresh (opening draft (room sh) w) }
        ensures house { result.house ≡ draft.house }
        ensures table { result.queue.table ≡ draft.table }
    {
        let (house, table) = draft.into_parts();
        let queue = Queue::new(table);
        // Costs nothing; but since the queue is looked at, LLVM builds its parts in the tree, and not a whole queue to be copied there.
        prove!(queue.load(0).backlog == 0);
        Tree {
            house,
            queue,
            phase: Phase::Free,
            meter: Units::ZERO,
            turns: 0,
            kind: PhantomData,
        }
    }
}
