//! The walks from a leaf up to the root that begin a wait and a turn, one class at a time.
ghost use Rattle.std.specs.Prelude.{◌≡◌, ℕ, ◌<◌, nat_eq};
ghost use Rattle.classes.specs.Tables.{class_count, shape_of, node_above};
ghost use Rattle.rules.specs.Shape.{under};
ghost use Rattle.tree.specs.Loads.{load};
ghost use Rattle.tree.specs.Walks.{Advanced, woken};

use crate::load::Load;
use crate::queue::Queue;
use tags::TagStore;

impl<T: TagStore> Queue<T> {
    /// Counts one more item in the lane of a leaf, and wakes what was not backlogged of it and the classes above it.
    pub(crate) fn wake(&mut self, leaf: u8)
        requires known { leaf < class_count self.old.table }
        requires room { (k : ℕ) → (load self.old.loads k).backlog < 4294967295 }
        ensures table { self.new.table ≡ self.old.table }
        ensures loads { (k : ℕ) → load self.new.loads k ≡ woken (shape_of self.old.table) self.old.loads (λ j. under (shape_of self.old.table) j leaf) k }
    {
        let mut next = Some(leaf);
        while let Some(class) = next {
            next = self.wake_class(class);
        }
    }

    /// The same for one class; answers the node above it.
    fn wake_class(&mut self, class: u8) -> Option<u8>
        requires known { class < class_count self.old.table }
        requires room { (load self.old.loads class).backlog < 4294967295 }
        ensures value { result ≡ node_above self.old.table class }
        ensures table { self.new.table ≡ self.old.table }
        ensures loads { (k : ℕ) → load self.new.loads k ≡ woken (shape_of self.old.table) self.old.loads (nat_eq class) k }
    {
        let load = self.loads[class as usize];
        let backlog = load.backlog + 1;
        let above = self.table.parent(class);
        let Some(node) = above else {
            self.loads[class as usize] = Load { backlog, ..load };
            return None;
        };
        if load.backlog > 0 {
            self.loads[class as usize] = Load { backlog, ..load };
            return above;
        }
        let start = self.loads[node as usize].vtime.max(load.finish);
        self.loads[class as usize] = Load {
            backlog,
            start,
            ..load
        };
        let _ = self.store.put(node, class, start);
        above
    }

    /// A turn of the leaf begins: each node above it takes the start tag of the child on the way for its virtual time.
    pub(crate) fn advance(&mut self, leaf: u8)
        requires known { leaf < class_count self.old.table }
        ensures table { self.new.table ≡ self.old.table }
        ensures loads { Advanced (shape_of self.old.table) leaf self.old.loads self.new.loads }
        ensures store { self.new.store ≡ self.old.store }
    {
        let mut class = leaf;
        while let Some(node) = self.table.parent(class) {
            let start = self.loads[class as usize].start;
            let load = self.loads[node as usize];
            self.loads[node as usize] = Load {
                vtime: start,
                ..load
            };
            class = node;
        }
    }
}
