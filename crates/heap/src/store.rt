//! The store: heaps that are in order.
ghost use Rattle.std.specs.Prelude.{◌≡◌, ℕ, ◌<◌, Some, None};
ghost use Rattle.tags.specs.Held.{with};
ghost use Rattle.heap.specs.Keys.{pairs, count, classes, keys};
ghost use Rattle.heap.specs.Order.{Ordered};
ghost use Rattle.std.proofs.Common.{rules};

use crate::heaps::Heaps;
use crate::standings::Standing;
use base::units::Parts;
use tags::TagStore;
use tags::number::Number;

/// Binary heaps of class numbers, one for each group, over a table of the pairs by class. The least is found in constant time; putting and taking go along one path of a heap.
#[derive(Drop)]
pub struct HeapStore {
    heaps: Heaps,
    ghost ordered: { (g : ℕ) → Ordered (keys heaps g) (count heaps g) },
}

impl HeapStore {
    // Puts in the pair of a class that does not stand.
    fn insert(&mut self, group: Number, class: Number, tag: Parts)
        requires { pairs self.old.heaps class.value ≡ None }
        ensures { pairs self.new.heaps ≡ with (pairs self.old.heaps) class.value (Some (group.value, tag)) }
    {
        let place = self.heaps.len(group);
        self.heaps.append(group, class, tag);
        self.heaps.rise(group, place);
    }

    // Removes the pair of the class at a place of a group's heap.
    fn remove(&mut self, group: Number, place: usize)
        requires { place < count self.old.heaps group.value }
        ensures { pairs self.new.heaps ≡ with (pairs self.old.heaps) (classes self.old.heaps group.value place) None }
    {
        self.heaps.remove_at(group, place);
        if place < self.heaps.len(group) {
            self.heaps.settle(group, place);
        }
    }
}

impl TagStore for HeapStore {
    ghost held = { λ s. pairs s.heaps };

    ghost small = { Prim.search rules };

    fn empty() -> HeapStore {
        HeapStore {
            heaps: Heaps::new(),
        }
    }

    fn put(&mut self, group: u8, class: u8, tag: Parts) -> bool {
        let (Some(group), Some(class)) = (Number::new(group), Number::new(class)) else {
            return false;
        };
        if self.heaps.standing(class).pair.is_some() {
            return false;
        }
        self.insert(group, class, tag);
        true
    }

    fn least(&self, group: u8) -> Option<(u8, Parts)> {
        let group = Number::new(group)?;
        let class = self.heaps.first(group)?;
        Some((class.get(), self.heaps.tag(class)))
    }

    fn take(&mut self, class: u8) -> Option<Parts> {
        let Standing { pair, place } = self.heaps.standing(Number::new(class)?);
        let (group, tag) = pair?;
        self.remove(group, place);
        Some(tag)
    }
}
