//! What a shelf can do, each in constant time.
ghost use Rattle.std.specs.Prelude.{◌≡◌, ℕ, ◌+◌, min, false, ◌&&◌, [], ◌∷◌, ◌++◌, length, drop, is_some, is_ok, if◌then◌else◌, ◌==◌, nat_eq, nat_lt};
ghost use Rattle.shelf.specs.Chains.{first};
ghost use Rattle.shelf.specs.Lanes.{lanes, room, free, beyond, stored, putting, headed, rest_of, Lent};

use crate::shelf::Shelf;
use crate::table::LinkTable;
use base::refusal::Refusal;
use items::Item;

// It may stop after so many units, with some of its cost to go.
fn stops_early<I: Item>(item: &I, done: u32) -> bool
    ensures { result ≡ (nat_lt done (I.Item.costs item.now) && I.Item.stops item.now done) }
{
    done < item.cost() && item.may_stop(done)
}

impl<'a, I: Item> Shelf<'a, I> {
    /// An empty shelf. Its places are those of the slice, up to the first 256.
    pub fn new(places: &'a mut [I]) -> Shelf<'a, I>
        ensures lanes { (j : ℕ) → lanes result j ≡ [] }
        ensures free { free result ≡ min (length places.old) 256 }
        ensures room { room result ≡ min (length places.old) 256 }
        ensures lender { (result.places.ghost_name ≡ places.entry.ghost_name) × (beyond result ≡ drop 256 places.old) }
    {
        Shelf {
            table: LinkTable::new(places.len()),
            places,
        }
    }

    /// How many places it has.
    pub fn room(&self) -> u16
        ensures { result ≡ room self.now }
    {
        self.table.size()
    }

    /// How many places are free: those that hold no item.
    pub fn free(&self) -> u16
        ensures value { result ≡ free self.now }
        ensures whole { stored self.now + result ≡ room self.now }
    {
        self.table.free()
    }

    /// How many items a lane has; 0 for an unknown lane.
    pub fn len(&self, lane: u8) -> u16
        ensures { result ≡ length (lanes self.now lane) }
    {
        self.table.len(lane)
    }

    /// The first item of a lane; none for a lane that is empty or unknown.
    pub fn head(&self, lane: u8) -> Option<I>
        ensures { result ≡ first (lanes self.now lane) }
    {
        let place = self.table.head(lane)?;
        Some(self.places[place as usize])
    }

    /// Puts an item at the end of a lane. Refused, with nothing altered, by the first of these:
    /// the lane is above 63, the cost is not from 1 to 65,535, all places hold items.
    pub fn put(&mut self, lane: u8, item: I) -> Result<(), Refusal>
        ensures answer { result ≡ putting lane (I.Item.costs item) (free self.old) }
        ensures lanes { (j : ℕ) → lanes self.new j ≡ (if is_ok result && j == lane then lanes self.old j ++ item ∷ [] else lanes self.old j) }
        ensures free { free self.new + (if is_ok result then 1 else 0) ≡ free self.old }
        ensures room { room self.new ≡ room self.old }
        ensures refused { is_ok result ≡ false → self.new ≡ self.old }
        ensures lender { Lent self.old self.new }
    {
        if lane >= 64 {
            return Err(Refusal::UnknownClass);
        }
        if !(1..=65_535).contains(&item.cost()) {
            return Err(Refusal::BadCost);
        }
        // The item is written before its place joins the lane, so that every lane is priced at each step.
        let place = self.table.first_free().ok_or(Refusal::ShelfFull)?;
        self.places[place as usize] = item;
        self.table.claim(lane);
        Ok(())
    }

    /// Takes the first item out of a lane; none, and nothing altered, for a lane that is empty or unknown.
    pub fn remove(&mut self, lane: u8) -> Option<I>
        ensures value { result ≡ first (lanes self.old lane) }
        ensures lanes { (j : ℕ) → lanes self.new j ≡ (if nat_eq j lane then drop 1 (lanes self.old j) else lanes self.old j) }
        ensures free { free self.new ≡ free self.old + (if is_some result then 1 else 0) }
        ensures room { room self.new ≡ room self.old }
        ensures none { is_some result ≡ false → self.new ≡ self.old }
        ensures lender { Lent self.old self.new }
    {
        let item = self.head(lane)?;
        self.table.release(lane);
        Some(item)
    }

    /// What is left of the first item of a lane after so many units takes its place, and is answered.
    /// None, and nothing altered, where there is no such item, where it may not stop there, or where that is all its cost.
    pub fn leave_rest(&mut self, lane: u8, done: u32) -> Option<I>
        ensures value { result ≡ rest_of I.Item.costs I.Item.stops I.Item.left (lanes self.old lane) done }
        ensures lanes { (j : ℕ) → lanes self.new j ≡ (if nat_eq j lane then headed result (lanes self.old j) else lanes self.old j) }
        ensures free { free self.new ≡ free self.old }
        ensures room { room self.new ≡ room self.old }
        ensures none { is_some result ≡ false → self.new ≡ self.old }
        ensures lender { Lent self.old self.new }
    {
        let place = self.table.head(lane)?;
        let item = self.places[place as usize];
        if !stops_early(&item, done) {
            return None;
        }
        let rest = item.rest(done);
        self.places[place as usize] = rest;
        Some(rest)
    }
}
