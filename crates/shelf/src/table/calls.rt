//! What a link table can do, each in constant time.
ghost use Rattle.std.specs.Prelude.{◌≡◌, ℕ, ◌<◌, min, [], length, IfSome, if◌then◌else◌, None, MatchOption, ◌≢◌, nat_lt};
ghost use Rattle.shelf.specs.Chains.{chain, first};
ghost use Rattle.shelf.specs.Tables.{line, spare, Passed, Claimed, Released};

use crate::table::{Chain, LinkTable};
use std::array;

// The chain of the free places.
const FREE: usize = 64;

impl LinkTable {
    /// A table of so many places, but at most 256, all of them free.
    pub fn new(places: usize) -> LinkTable
        ensures size { result.size ≡ min places 256 }
        ensures spare { length (spare result) ≡ min places 256 }
        ensures lines { (k : ℕ) → line result k ≡ [] }
    {
        let size = places.min(256) as u16;
        let mut chains = [Chain::EMPTY; 65];
        chains[FREE] = Chain {
            head: 0,
            tail: size.saturating_sub(1),
            len: size,
        };
        LinkTable {
            next: array::from_fn(|place| place as u16 + 1),
            chains,
            size,
        }
    }

    /// How many places there are.
    pub fn size(&self) -> u16
        ensures { result ≡ self.now.size }
    {
        self.size
    }

    /// How many places a lane has; 0 for an unknown one.
    pub fn len(&self, lane: u8) -> u16
        ensures { result ≡ length (line self.now lane) }
    {
        if lane >= 64 {
            return 0;
        }
        self.chains[lane as usize].len
    }

    /// How many places are free.
    pub fn free(&self) -> u16
        ensures { result ≡ length (spare self.now) }
    {
        self.chains[FREE].len
    }

    /// The first place of a lane; none for a lane that is empty or unknown.
    pub fn head(&self, lane: u8) -> Option<u16>
        ensures value { result ≡ first (line self.now lane) }
        ensures within { IfSome result (λ p. p < self.now.size) }
    {
        if lane >= 64 {
            return None;
        }
        self.first(lane as usize)
    }

    /// The first free place; none where no place is free.
    pub fn first_free(&self) -> Option<u16>
        ensures value { result ≡ first (spare self.now) }
        ensures within { IfSome result (λ p. p < self.now.size) }
    {
        self.first(FREE)
    }

    /// The first free place goes to the end of a lane; none, and nothing altered, where no place is free or the lane is unknown.
    pub fn claim(&mut self, lane: u8) -> Option<u16>
        ensures value { result ≡ (if nat_lt lane 64 then first (spare self.old) else None) }
        ensures after { MatchOption result (self.new ≡ self.old) (λ p. Claimed self.old self.new lane p) }
    {
        if lane >= 64 {
            return None;
        }
        self.pass(FREE, lane as usize)
    }

    /// The first place of a lane becomes the last free one; none, and nothing altered, for a lane that is empty or unknown.
    pub fn release(&mut self, lane: u8) -> Option<u16>
        ensures value { result ≡ first (line self.old lane) }
        ensures after { MatchOption result (self.new ≡ self.old) (λ p. Released self.old self.new lane p) }
    {
        if lane >= 64 {
            return None;
        }
        self.pass(lane as usize, FREE)
    }

    // The first place of a chain; none for an empty one.
    fn first(&self, at: usize) -> Option<u16>
        requires { at < 65 }
        ensures { result ≡ first (chain self.now.next self.now.chains at) }
    {
        let chain = self.chains[at];
        if chain.len == 0 {
            return None;
        }
        Some(chain.head)
    }

    // The first place of chain `from` goes to the end of chain `to`; none, and nothing altered, where `from` is empty.
    fn pass(&mut self, from: usize, to: usize) -> Option<u16>
        requires { (from < 65) × (to < 65) × (from ≢ to) }
        ensures value { result ≡ first (chain self.old.next self.old.chains from) }
        ensures after { MatchOption result (self.new ≡ self.old) (λ p. Passed self.old self.new from to p) }
    {
        let place = self.first(from)?;
        let start = self.chains[from];
        let end = self.chains[to];
        let after = self.next[place as usize];
        let (head, last) = if end.len == 0 {
            (place, place)
        } else {
            (end.head, end.tail)
        };
        self.next[last as usize] = place;
        self.chains[to] = Chain {
            head,
            tail: place,
            len: end.len + 1,
        };
        self.chains[from] = Chain {
            head: after,
            len: start.len - 1,
            ..start
        };
        Some(place)
    }
}
