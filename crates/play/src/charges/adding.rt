//! Charging a leaf and the classes above it.
ghost use Rattle.std.specs.Prelude.{◌≡◌, ℕ, ◌<◌, if◌then◌else◌, nat_eq};
ghost use Rattle.classes.specs.Tables.{class_count, shape_of};
ghost use Rattle.rules.specs.Shape.{under};
ghost use Rattle.play.specs.Charges.{charged_at, more};

use crate::charges::Charges;
use base::units::Units;
use items::Item;
use tags::TagStore;
use tree::tree::Tree;

impl Charges {
    /// Nothing is charged yet.
    pub(crate) fn new() -> Charges
        ensures { (k : ℕ) → charged_at result k ≡ 0 }
    {
        Charges {
            units: [Units::ZERO; 64],
        }
    }

    /// What a class was charged; nothing at a number above 63.
    pub(crate) fn of(&self, class: u8) -> Units
        ensures { result.0 ≡ charged_at self.now class }
    {
        if class >= 64 {
            return Units::ZERO;
        }
        self.units[class as usize]
    }

    /// Charges the work of a turn to its leaf and to each class above it.
    pub(crate) fn add<T: TagStore, I: Item>(&mut self, tree: &Tree<T, I>, leaf: u8, done: Units)
        ensures { leaf < (class_count tree.now.queue.table) → (k : ℕ) → charged_at self.new k ≡ (if under (shape_of tree.now.queue.table) k leaf then more (charged_at self.old k) done.0 else charged_at self.old k) }
    {
        let mut next = Some(leaf);
        while let Some(class) = next {
            self.add_to(class, done);
            next = tree.parent(class);
        }
    }

    /// Charges it to one class.
    fn add_to(&mut self, class: u8, done: Units)
        ensures { class < 64 → (k : ℕ) → charged_at self.new k ≡ (if nat_eq class k then more (charged_at self.old k) done.0 else charged_at self.old k) }
    {
        if class >= 64 {
            return;
        }
        let before = self.units[class as usize];
        self.units[class as usize] = Units::new(before.get().saturating_add(done.get()));
    }
}
