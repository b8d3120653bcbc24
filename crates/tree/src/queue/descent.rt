//! A new queue, and the way down to the leaf that is served next.
ghost use Rattle.std.specs.Prelude.{◌≡◌, ℕ, ◌<◌, IfSome};
ghost use Rattle.classes.specs.Tables.{shape_of};
ghost use Rattle.rules.specs.Shape.{leaf};
ghost use Rattle.tree.specs.Loads.{load, no_load};
ghost use Rattle.tree.specs.Walks.{lowest, pick};

use crate::load::Load;
use crate::queue::Queue;
use classes::table::ClassTable;
use tags::TagStore;

/// No class is deeper.
const DEEPEST: u8 = 7;

impl<T: TagStore> Queue<T> {
    /// Nothing waits, and every tag is 0.
    pub(crate) fn new(table: ClassTable) -> Queue<T>
        ensures table { result.table ≡ table }
        ensures loads { (k : ℕ) → load result.loads k ≡ no_load }
    {
        Queue {
            table,
            loads: [Load::NONE; 64],
            store: T::empty(),
        }
    }

    /// The leaf to serve next: from the root on, the child that the store has for least, as far as it leads. None where no item waits.
    pub(crate) fn pick(&self) -> Option<u8>
        ensures value { result ≡ pick (T.TagStore.held self.now.store) (leaf (shape_of self.now.table) 0) (load self.now.loads 0).backlog }
        ensures known { IfSome result (λ k. k < 64) }
    {
        if self.table.is_leaf(0) {
            return (self.loads[0].backlog > 0).then_some(0);
        }
        let (child, _) = self.store.least(0)?;
        Some(self.descend(child))
    }

    /// As far down from a node as the store leads.
    fn descend(&self, from: u8) -> u8
        requires { from < 64 }
        ensures value { result ≡ lowest (T.TagStore.held self.now.store) from }
        ensures known { result < 64 }
    {
        let mut node = from;
        for _ in 0..DEEPEST {
            let Some((child, _)) = self.store.least(node) else {
                return node;
            };
            node = child;
        }
        node
    }
}
