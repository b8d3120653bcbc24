//! A link with outages over any server.
ghost use Rattle.std.specs.Prelude.{◌≡◌, true, false, [], MatchResult};
ghost use Rattle.links.specs.Interrupts.{Added, Interrupts};
ghost use Rattle.links.specs.Listed.{listed};
ghost use Rattle.links.specs.Outages.{fits, outage};
ghost use Rattle.std.proofs.Common.{rules};

use crate::outage::Outage;
use crate::outages::Outages;
use crate::server::Server;
use base::refusal::Refusal;
use base::units::Units;

/// A server that hands draws on to the one below, except during its outages. It counts the draws of 1 or more, from 0.
#[derive(Drop)]
pub struct Interrupted<S> {
    below: S,
    outages: Outages,
    count: u32,
}

impl<S> Interrupted<S> {
    /// A link without outages that has counted no draw.
    pub fn new(below: S) -> Interrupted<S>
        ensures { (result.below ≡ below) × (listed result.outages ≡ []) × (result.count ≡ 0) }
    {
        Interrupted::with_outages(below, Outages::new())
    }

    /// A link with these outages that has counted no draw.
    pub fn with_outages(below: S, outages: Outages) -> Interrupted<S>
        ensures { (result.below ≡ below) × (result.outages ≡ outages) × (result.count ≡ 0) }
    {
        Interrupted {
            below,
            outages,
            count: 0,
        }
    }

    /// Adds an outage behind those that stand. Refused are a length of 0, an offset below the end of the last outage, an
    /// end above 4,294,967,295, and a 17th outage.
    pub fn add_outage(&mut self, offset: u32, length: u32) -> Result<(), Refusal>
        ensures { MatchResult result
            (λ _. (fits (listed self.old.outages) (outage offset length) ≡ true) × Added self.old (outage offset length) self.new)
            (λ e. (e ≡ Refusal.BadOutage) × (fits (listed self.old.outages) (outage offset length) ≡ false) × (self.new ≡ self.old)) }
    {
        self.outages.add(Outage { offset, length })
    }
}

impl<S: Server> Server for Interrupted<S> {
    ghost work = { λ s. S.Server.work s.below };

    ghost draws = { λ s n d t. Interrupts S.Server.draws s n d t };

    ghost within = { Prim.search rules };

    ghost counted = { Prim.search rules };

    ghost bounded = { Prim.search rules };

    fn draw(&mut self, wanted: u32) -> u32 {
        if wanted == 0 {
            return 0;
        }
        let count = self.count;
        self.count = count.saturating_add(1);
        if self.outages.cover(count) {
            return 0;
        }
        self.below.draw(wanted)
    }

    fn done(&self) -> Units {
        self.below.done()
    }
}

#[cfg(test)]
mod tests {
    use super::*;
    use crate::fixed::FixedLink;
    use std::test::Fail;

    #[test]
    fn outages_in_order(rt: HostRuntime) -> Result<(), Fail> {
        let mut link = Interrupted::new(FixedLink::new(8)?);
        for (offset, length, refused) in [
            (0, 0, true), // empty
            (2, 3, false), // the first, with a gap before it
            (4, 9, true), // it overlaps the first
            (1, 1, true), // it stands before the first
            (5, 1, false), // it touches the first
            (6, u32::MAX, true), // it ends above 32 bits
            (4_294_967_294, 2, true), // it ends one count too late
            (4_294_967_294, 1, false),
            (4_294_967_295, 0, true),
            (4_294_967_295, 1, true),
        ] {
            let refusal = refused.then_some(Refusal::BadOutage);
            assert_eq!(rt; link.add_outage(offset, length).err(), refusal);
        }
        Ok(())
    }

    #[test]
    fn seventeenth(rt: HostRuntime) -> Result<(), Fail> {
        let mut link = Interrupted::new(FixedLink::new(8)?);
        for offset in 0..16 {
            link.add_outage(offset, 1)?;
        }
        assert_eq!(rt; link.add_outage(16, 1).err(), Some(Refusal::BadOutage));
        for _ in 0..16 {
            assert_eq!(rt; link.draw(1), 0);
        }
        assert_eq!(rt; link.draw(9), 8);
        Ok(())
    }

    #[test]
    fn draws(rt: HostRuntime) -> Result<(), Fail> {
        let mut link = Interrupted::new(FixedLink::new(8)?);
        link.add_outage(1, 2)?;
        link.add_outage(3, 1)?;
        for (wanted, done) in [
            (9, 8),
            (0, 0),
            (9, 0),
            (0, 0),
            (9, 0),
            (1, 0),
            (0, 0),
            (3, 3),
            (9, 8),
        ] {
            assert_eq!(rt; link.draw(wanted), done);
        }
        assert_eq!(rt; link.done().get(), 19);
        Ok(())
    }

    // the count of a link that was drawn on almost as often as it counts
    #[test]
    fn last_count(rt: HostRuntime) -> Result<(), Fail> {
        let mut link = Interrupted::new(FixedLink::new(8)?);
        link.add_outage(4_294_967_294, 1)?;
        link.count = 4_294_967_293;
        for done in [8, 0, 8, 8] {
            assert_eq!(rt; link.draw(9), done);
        }
        assert_eq!(rt; link.count, 4_294_967_295);
        Ok(())
    }

    // what the upper link keeps to itself the lower one does not count
    #[test]
    fn one_over_the_other(rt: HostRuntime) -> Result<(), Fail> {
        let mut lower = Interrupted::new(FixedLink::new(8)?);
        lower.add_outage(0, 1)?;
        let mut upper = Interrupted::new(lower);
        upper.add_outage(0, 1)?;
        for done in [0, 0, 8] {
            assert_eq!(rt; upper.draw(9), done);
        }
        assert_eq!(rt; upper.done().get(), 8);
        Ok(())
    }
}
