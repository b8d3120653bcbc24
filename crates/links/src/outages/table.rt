//! Adding outages, and asking whether a draw falls into one.
ghost use Rattle.std.specs.Prelude.{◌≡◌, true, false, [], ◌∷◌, ◌++◌, MatchResult};
ghost use Rattle.links.specs.Outages.{covered, fits, last_end};
ghost use Rattle.links.specs.Listed.{listed};

use crate::outage::Outage;
use crate::outages::Outages;
use arrayvec::ArrayVec;
use base::refusal::Refusal;

impl Outages {
    /// No outages.
    pub fn new() -> Outages
        ensures { listed result ≡ [] }
    {
        Outages {
            list: ArrayVec::new(),
        }
    }

    /// Where the last outage ends, 0 before the first.
    fn last_end(&self) -> u32
        ensures { result ≡ last_end 0 (listed self.now) }
    {
        self.list.last().map_or(0, |last| last.offset + last.length)
    }

    /// Whether the outage may stand behind those that stand: it is not empty, begins at the last one's end or later, ends
    /// at 4,294,967,295 or before, and is no 17th.
    fn takes(&self, outage: Outage) -> bool
        ensures { result ≡ fits (listed self.now) outage }
    {
        !self.list.is_full()
            && self.last_end() <= outage.offset
            && outage.length > 0
            && outage.offset.checked_add(outage.length).is_some()
    }

    /// Adds the outage behind those that stand, or refuses it.
    #[tactic(auto, using(crate::proofs::Order::one_more))]
    pub fn add(&mut self, outage: Outage) -> Result<(), Refusal>
        ensures { MatchResult result
            (λ _. (fits (listed self.old) outage ≡ true) × (listed self.new ≡ listed self.old ++ outage ∷ []))
            (λ e. (e ≡ Refusal.BadOutage) × (fits (listed self.old) outage ≡ false) × (self.new ≡ self.old)) }
    {
        if !self.takes(outage) {
            return Err(Refusal::BadOutage);
        }
        self.list.push(outage);
        Ok(())
    }

    /// Whether the draw of that count falls into an outage.
    pub(crate) fn cover(&self, count: u32) -> bool
        ensures { result ≡ covered (listed self.now) count }
    {
        self.list.iter().any(|outage| outage.covers(count))
    }
}
