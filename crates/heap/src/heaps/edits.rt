//! Single steps on the heaps.
ghost use Rattle.std.specs.Prelude.{◌≡◌, ℕ, ◌+◌, ◌-◌, ◌<◌, ◌≤◌, Some, None, ◌≢◌, nat_lt, MatchOption};
ghost use Rattle.tags.specs.Held.{with};
ghost use Rattle.heap.specs.Index.{standing, tag_or, exchanged};
ghost use Rattle.heap.specs.Keys.{pairs, count, classes, keys, Reordered};

use crate::heaps::Heaps;
use crate::standings::{Standing, Standings};
use arrayvec::ArrayVec;
use base::units::Parts;
use std::array;
use tags::number::Number;

// A place is a plain index of a heap's vector, since it is reckoned with. Group and place are passed apart, since along a path of a heap the place alone changes.
impl Heaps {
    /// No class stands.
    pub(crate) fn new() -> Heaps
        ensures pairs { (k : ℕ) → pairs result k ≡ None }
        ensures lens { (g : ℕ) → count result g ≡ 0 }
    {
        Heaps {
            standings: Standings::new(),
            heaps: array::from_fn(|_| ArrayVec::new()),
        }
    }

    /// Where a class stands.
    pub(crate) fn standing(&self, class: Number) -> Standing
        ensures { result ≡ standing self.now.standings.rows class.value }
    {
        self.standings.get(class)
    }

    /// The tag of a class, 0 where it does not stand.
    pub(crate) fn tag(&self, class: Number) -> Parts
        ensures { result ≡ tag_or (pairs self.now class.value) }
    {
        self.standings
            .get(class)
            .pair
            .map_or(Parts::ZERO, |(_, tag)| tag)
    }

    /// How many classes stand in a group.
    pub(crate) fn len(&self, group: Number) -> usize
        ensures value { result ≡ count self.now group.value }
        ensures most { result ≤ 64 }
    {
        self.heaps[group.get() as usize].len()
    }

    /// The class at the root of a group's heap, if one stands there.
    pub(crate) fn first(&self, group: Number) -> Option<Number>
        ensures { MatchOption result (count self.now group.value ≡ 0) (λ class. (0 < count self.now group.value) × (class.value ≡ classes self.now group.value 0)) }
    {
        self.heaps[group.get() as usize].first().copied()
    }

    /// The class at a place of a group's heap.
    pub(crate) fn class_at(&self, group: Number, place: usize) -> Number
        requires { place < count self.now group.value }
        ensures { result.value ≡ classes self.now group.value place }
    {
        self.heaps[group.get() as usize][place]
    }

    /// The class at place i of a group's heap comes before the one at place j.
    pub(crate) fn before(&self, group: Number, i: usize, j: usize) -> bool
        requires { (i < count self.now group.value) × (j < count self.now group.value) }
        ensures { result ≡ nat_lt (keys self.now group.value i) (keys self.now group.value j) }
    {
        let a = self.class_at(group, i);
        let b = self.class_at(group, j);
        (self.tag(a), a) < (self.tag(b), b)
    }

    /// Exchanges the classes at two places of a group's heap.
    pub(crate) fn exchange(&mut self, group: Number, i: usize, j: usize)
        requires { (i < count self.old group.value) × (j < count self.old group.value) }
        ensures classes { (k : ℕ) → classes self.new group.value k ≡ exchanged (classes self.old group.value) i j k }
        ensures keys { (k : ℕ) → keys self.new group.value k ≡ exchanged (keys self.old group.value) i j k }
        ensures reordered { Reordered self.old self.new group.value }
    {
        let heap = &mut self.heaps[group.get() as usize];
        // read before they are written, so that nothing waits for the writes
        let a = heap[i];
        let b = heap[j];
        heap.swap(i, j);
        self.standings.move_to(b, i);
        self.standings.move_to(a, j);
        // costs nothing; but the loan of the heap has to last over the writes
        prove!(j < heap.len());
    }

    /// Puts a class that does not stand at the end of a group's heap.
    pub(crate) fn append(&mut self, group: Number, class: Number, tag: Parts)
        requires { pairs self.old class.value ≡ None }
        ensures pairs { pairs self.new ≡ with (pairs self.old) class.value (Some (group.value, tag)) }
        ensures len { count self.new group.value ≡ count self.old group.value + 1 }
        ensures other_lens { (g : ℕ) → (g ≢ group.value) → count self.new g ≡ count self.old g }
        ensures keys { (g i : ℕ) → i < count self.old g → keys self.new g i ≡ keys self.old g i }
    {
        let place = self.len(group);
        self.heaps[group.get() as usize].push(class);
        let pair = Some((group, tag));
        self.standings.set(class, Standing { pair, place });
    }

    /// Removes the class at a place of a group's heap, with its pair. The last class of the heap goes to its place.
    pub(crate) fn remove_at(&mut self, group: Number, place: usize)
        requires { place < count self.old group.value }
        ensures pairs { pairs self.new ≡ with (pairs self.old) (classes self.old group.value place) None }
        ensures len { count self.new group.value + 1 ≡ count self.old group.value }
        ensures other_lens { (g : ℕ) → (g ≢ group.value) → count self.new g ≡ count self.old g }
        ensures keys { (i : ℕ) → i < count self.new group.value → keys self.new group.value i ≡ exchanged (keys self.old group.value) place (count self.new group.value) i }
        ensures others { (g i : ℕ) → (g ≢ group.value) → i < count self.old g → keys self.new g i ≡ keys self.old g i }
    {
        let heap = &mut self.heaps[group.get() as usize];
        let last = heap[heap.len() - 1];
        self.standings.move_to(last, place);
        let class = heap.swap_remove(place);
        self.standings.set(class, Standing::NOWHERE);
    }
}
