//! The walk from a leaf up to the root that closes a turn, one class at a time.
ghost use Rattle.std.specs.Prelude.{◌≡◌, ℕ, ◌+◌, ◌-◌, ◌*◌, ◌<◌, ◌≤◌, if◌then◌else◌, nat_eq};
ghost use Rattle.base.specs.Charge.{charged};
ghost use Rattle.classes.specs.Tables.{class_count, shape_of, weight_of, node_above};
ghost use Rattle.rules.specs.Shape.{under};
ghost use Rattle.tree.specs.Loads.{load};
ghost use Rattle.tree.specs.Walks.{charged_load, rested, settled};

use crate::load::Load;
use crate::queue::Queue;
use base::units::{Parts, Units};
use base::weight::charge;
use tags::TagStore;

/// How a turn is closed: the work done in it, and whether its item has left the lane.
#[derive(Clone, Copy)]
pub(crate) struct Closing {
    pub(crate) done: u32,
    pub(crate) gone: bool,
}

impl Closing {
    /// The items that are left of so many.
    fn left(self, backlog: u32) -> u32
        ensures { result ≡ (if self.gone then backlog - 1 else backlog) }
    {
        backlog.saturating_sub(u32::from(self.gone))
    }
}

impl<T: TagStore> Queue<T> {
    /// A turn of the leaf is closed: its work is charged to the leaf and the classes above it but the root.
    pub(crate) fn settle(&mut self, leaf: u8, closing: Closing)
        requires known { leaf < class_count self.old.table }
        requires room { (k : ℕ) → (load self.old.loads k).start.0 + 720720 * closing.done ≤ 720720000000000000 }
        ensures table { self.new.table ≡ self.old.table }
        ensures loads { (k : ℕ) → load self.new.loads k ≡ settled (shape_of self.old.table) (weight_of self.old.table) self.old.loads (λ j. under (shape_of self.old.table) j leaf) closing.done closing.gone k }
    {
        let mut next = Some(leaf);
        while let Some(class) = next {
            next = self.settle_class(class, closing);
        }
    }

    /// The same for one class; answers the node above it.
    fn settle_class(&mut self, class: u8, closing: Closing) -> Option<u8>
        requires known { class < class_count self.old.table }
        requires room { (load self.old.loads class).start.0 + 720720 * closing.done ≤ 720720000000000000 }
        ensures value { result ≡ node_above self.old.table class }
        ensures table { self.new.table ≡ self.old.table }
        ensures loads { (k : ℕ) → load self.new.loads k ≡ settled (shape_of self.old.table) (weight_of self.old.table) self.old.loads (nat_eq class) closing.done closing.gone k }
    {
        self.charge_class(class, closing);
        if self.loads[class as usize].backlog == 0 {
            self.rest(class);
        }
        self.table.parent(class)
    }

    /// Counts the item that is gone, and charges the class if it is not the root: it leaves the store, and where it is still backlogged it
    /// comes back with the later of its node's virtual time and its finish tag.
    fn charge_class(&mut self, class: u8, closing: Closing)
        requires known { class < class_count self.old.table }
        requires room { (load self.old.loads class).start.0 + 720720 * closing.done ≤ 720720000000000000 }
        ensures table { self.new.table ≡ self.old.table }
        ensures loads { (k : ℕ) → load self.new.loads k ≡ charged_load (shape_of self.old.table) (weight_of self.old.table) self.old.loads (nat_eq class) closing.done closing.gone k }
    {
        let load = self.loads[class as usize];
        let backlog = closing.left(load.backlog);
        let Some(node) = self.table.parent(class) else {
            self.loads[class as usize] = Load { backlog, ..load };
            return;
        };
        let finish = self.finish_tag(class, closing.done);
        let _ = self.store.take(class);
        if backlog == 0 {
            self.loads[class as usize] = Load {
                backlog,
                finish,
                ..load
            };
            return;
        }
        let start = self.loads[node as usize].vtime.max(finish);
        self.loads[class as usize] = Load {
            backlog,
            start,
            finish,
            ..load
        };
        let _ = self.store.put(node, class, start);
    }

    /// The finish tag of a class once it has done so much.
    fn finish_tag(&self, class: u8, done: u32) -> Parts
        requires known { class < class_count self.now.table }
        requires room { (load self.now.loads class).start.0 + 720720 * done ≤ 720720000000000000 }
        ensures { result.0 ≡ (load self.now.loads class).start.0 + charged done (weight_of self.now.table class) }
    {
        let weight = self.table.class(class).unwrap().weight;
        self.loads[class as usize].start + charge(Units::new(u64::from(done)), weight).unwrap()
    }

    /// A node that is no longer backlogged: its virtual time and its children's finish tags are 0.
    fn rest(&mut self, node: u8)
        requires known { node < class_count self.old.table }
        ensures table { self.new.table ≡ self.old.table }
        ensures loads { (k : ℕ) → load self.new.loads k ≡ rested (shape_of self.old.table) self.old.loads node k }
        ensures store { self.new.store ≡ self.old.store }
    {
        let mut next = self.table.first_child(node);
        while let Some(child) = next {
            let load = self.loads[child as usize];
            self.loads[child as usize] = Load {
                finish: Parts::ZERO,
                ..load
            };
            next = self.table.next_sibling(child);
        }
        let load = self.loads[node as usize];
        self.loads[node as usize] = Load {
            vtime: Parts::ZERO,
            ..load
        };
    }
}
