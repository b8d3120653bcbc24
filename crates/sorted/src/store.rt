//! The store: a list that is in order.
ghost use Rattle.std.specs.Prelude.{◌≡◌, ◌<◌, ◌≤◌, true, false, length, Some, None, slice_index_or};
ghost use Rattle.std.specs.List.Sorted.{IsPartitionPoint};
ghost use Rattle.tags.specs.Held.{with, free};
ghost use Rattle.sorted.specs.Rows.{precedes, InOrder, Once, held_in, Found};
ghost use Rattle.sorted.specs.Small.{held_small};

use crate::entry::Entry;
use arrayvec::ArrayVec;
use base::units::Parts;
use tags::TagStore;
use tags::number::Number;

/// The classes that stand, sorted by group, then by tag, then by class.
#[derive(Drop)]
pub struct SortedStore {
    entries: ArrayVec<Entry, 64>,
    ghost once: { Once entries.items },
    ghost sorted: { InOrder entries.items },
}

impl SortedStore {
    // The place of a class.
    fn position(&self, class: u8) -> Option<usize>
        ensures { Found self.now.entries.items class result }
    {
        self.entries
            .iter()
            .position(|entry| entry.class.get() == class)
    }

    // The class has no pair.
    fn is_free(&self, class: Number) -> bool
        ensures { result ≡ free (held_in self.now.entries.items class.value) }
    {
        self.position(class.get()).is_none()
    }

    // How many entries come before the given one.
    fn place(&self, key: Entry) -> usize
        ensures most { result ≤ length self.now.entries.items }
        ensures parted { IsPartitionPoint (λ a. precedes a key ≡ true) (λ a. precedes a key ≡ false) self.now.entries.items result }
    {
        self.entries.partition_point(|entry| *entry < key)
    }

    // Puts in the entry of a class that has none. By reference: by value its bytes would be copied once more on the way.
    fn insert(&mut self, new: &Entry)
        requires { free (held_in self.old.entries.items new.now.class.value) ≡ true }
        ensures { held_in self.new.entries.items ≡ with (held_in self.old.entries.items) new.now.class.value (Some (new.now.group.value, new.now.tag)) }
    {
        let at = self.place(*new);
        self.entries.insert(at, *new);
    }

    // Removes the entry at a place.
    fn remove(&mut self, at: usize) -> Entry
        requires { at < length self.old.entries.items }
        ensures value { result ≡ slice_index_or self.old.entries.items at result }
        ensures after { held_in self.new.entries.items ≡ with (held_in self.old.entries.items) result.class.value None }
    {
        self.entries.remove(at)
    }
}

impl TagStore for SortedStore {
    ghost held = { λ s. held_in s.entries.items };

    ghost small = { λ s. held_small s.entries.items };

    fn empty() -> SortedStore {
        SortedStore {
            entries: ArrayVec::new(),
        }
    }

    // Inlined, and the entry made before the test: otherwise its bytes are copied on the way, and a lone class takes half as long again.
    #[inline]
    fn put(&mut self, group: u8, class: u8, tag: Parts) -> bool {
        let (Some(group), Some(class)) = (Number::new(group), Number::new(class)) else {
            return false;
        };
        let new = Entry { group, tag, class };
        if !self.is_free(class) {
            return false;
        }
        self.insert(&new);
        true
    }

    fn least(&self, group: u8) -> Option<(u8, Parts)> {
        let group = Number::new(group)?;
        let lowest = Entry {
            group,
            tag: Parts::ZERO,
            class: Number::default(),
        };
        let entry = self.entries.get(self.place(lowest))?;
        if entry.group != group {
            return None;
        }
        Some((entry.class.get(), entry.tag))
    }

    fn take(&mut self, class: u8) -> Option<Parts> {
        let at = self.position(class)?;
        Some(self.remove(at).tag)
    }
}
