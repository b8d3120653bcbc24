//! Putting a heap in order again.
ghost use Rattle.std.specs.Prelude.{◌<◌};
ghost use Rattle.heap.specs.Keys.{count, keys, Reordered};
ghost use Rattle.heap.specs.Order.{Ordered, ButParent, ButChildren, ButPlace, Later, Sooner};

use crate::heaps::Heaps;
use tags::number::Number;

impl Heaps {
    /// The parent of a place, if the place comes before it.
    fn later_parent(&self, group: Number, place: usize) -> Option<usize>
        requires { place < count self.now group.value }
        ensures { Later (keys self.now group.value) place result }
    {
        // the root counts as its own parent, and does not come before itself
        let parent = place.saturating_sub(1) / 2;
        self.before(group, place, parent).then_some(parent)
    }

    /// Moves the class at a place up until it does not come before its parent.
    pub(crate) fn rise(&mut self, group: Number, from: usize)
        requires known { from < count self.old group.value }
        requires order { ButParent (keys self.old group.value) (count self.old group.value) from }
        ensures ordered { Ordered (keys self.new group.value) (count self.new group.value) }
        ensures reordered { Reordered self.old self.new group.value }
    {
        let mut place = from;
        while let Some(parent) = self.later_parent(group, place) {
            self.exchange(group, place, parent);
            place = parent;
        }
    }

    /// The child that has to go above a place: the one that comes first of its children, if that comes before the place.
    fn sooner_child(&self, group: Number, place: usize) -> Option<usize>
        requires { place < count self.now group.value }
        ensures { Sooner (keys self.now group.value) (count self.now group.value) place result }
    {
        let len = self.len(group);
        let left = 2 * place + 1;
        if left >= len {
            return None;
        }
        let right = left + 1;
        let child = if right < len && self.before(group, right, left) {
            right
        } else {
            left
        };
        self.before(group, child, place).then_some(child)
    }

    /// Moves the class at a place down until none of its children comes before it.
    pub(crate) fn sink(&mut self, group: Number, from: usize)
        requires known { from < count self.old group.value }
        requires order { ButChildren (keys self.old group.value) (count self.old group.value) from }
        ensures ordered { Ordered (keys self.new group.value) (count self.new group.value) }
        ensures reordered { Reordered self.old self.new group.value }
    {
        let mut place = from;
        while let Some(child) = self.sooner_child(group, place) {
            self.exchange(group, place, child);
            place = child;
        }
    }

    /// Moves the class at a place to where it belongs.
    pub(crate) fn settle(&mut self, group: Number, place: usize)
        requires known { place < count self.old group.value }
        requires order { ButPlace (keys self.old group.value) (count self.old group.value) place }
        ensures ordered { Ordered (keys self.new group.value) (count self.new group.value) }
        ensures reordered { Reordered self.old self.new group.value }
    {
        if self.later_parent(group, place).is_some() {
            self.rise(group, place);
        } else {
            self.sink(group, place);
        }
    }
}
