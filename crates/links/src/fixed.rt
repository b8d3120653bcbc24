//! A link of a fixed rate.
ghost use Rattle.std.specs.Prelude.{◌≡◌, ◌<◌, ◌≤◌, ◌⊎◌, MatchResult};

use base::refusal::Refusal;
use base::units::Units;

pub mod serve;

/// A server that does at most `rate` units in a draw.
#[derive(Drop)]
pub struct FixedLink {
    rate: u32,
    done: Units,
    ghost least: { 1 ≤ rate },
    ghost most: { rate ≤ 65535 },
    ghost ended: { done.0 ≤ 1000000000000000 },
}

impl FixedLink {
    /// A link of that rate that has done nothing yet, or the refusal of a rate outside 1 to 65,535.
    pub fn new(rate: u32) -> Result<FixedLink, Refusal>
        ensures { MatchResult result (λ l. (l.rate ≡ rate) × (l.done.0 ≡ 0)) (λ e. (e ≡ Refusal.BadRate) × ((rate < 1) ⊎ (65535 < rate))) }
    {
        if !(1..=65_535).contains(&rate) {
            return Err(Refusal::BadRate);
        }
        Ok(FixedLink {
            rate,
            done: Units::ZERO,
        })
    }
}

#[cfg(test)]
mod tests {
    use super::*;
    use crate::server::{Server, at_end};
    use std::test::Fail;

    #[test]
    fn rates(rt: HostRuntime) -> Result<(), Fail> {
        for rate in [0, 65_536, u32::MAX] {
            assert_eq!(rt; FixedLink::new(rate).err(), Some(Refusal::BadRate));
        }
        for rate in [1, 65_535] {
            let mut link = FixedLink::new(rate)?;
            assert_eq!(rt; link.draw(0), 0);
            assert_eq!(rt; link.draw(u32::MAX), rate);
            assert_eq!(rt; link.draw(1), 1);
            assert_eq!(rt; link.done().get(), u64::from(rate) + 1);
        }
        Ok(())
    }

    // a link that is 3 units before its end
    #[test]
    fn end(rt: HostRuntime) {
        let mut link = FixedLink {
            rate: 8,
            done: Units::new(999_999_999_999_997),
        };
        assert!(rt; !at_end(&link));
        for (wanted, done) in [(2, 2), (8, 1), (1, 0), (u32::MAX, 0)] {
            assert_eq!(rt; link.draw(wanted), done);
        }
        assert_eq!(rt; link.done().get(), 1_000_000_000_000_000);
        assert!(rt; at_end(&link));
    }
}
