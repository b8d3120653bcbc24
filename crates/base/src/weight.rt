//! Weights, and what work comes to at a weight.
ghost use Rattle.std.specs.Prelude.{◌≡◌, ◌<◌, ◌≤◌, ◌⊎◌, MatchResult};
ghost use Rattle.base.specs.Charge.{charge_of};

use crate::refusal::Refusal;
use crate::units::{Parts, Units};

/// The weight of a class, 1 to 16.
#[derive(Clone, Copy)]
pub struct Weight {
    value: u8,
    ghost least: { 1 ≤ value },
    ghost most: { value ≤ 16 },
}

impl Weight {
    /// The weight of that number, or the refusal of a number outside 1 to 16.
    pub fn new(number: u32) -> Result<Weight, Refusal>
        ensures { MatchResult result (λ w. w.value ≡ number) (λ e. (e ≡ Refusal.BadWeight) × ((number < 1) ⊎ (16 < number))) }
    {
        if !(1..=16).contains(&number) {
            return Err(Refusal::BadWeight);
        }
        Ok(Weight {
            value: number as u8,
        })
    }

    pub fn get(self) -> u8
        ensures value { result ≡ self.value }
        ensures range { (1 ≤ result) × (result ≤ 16) }
    {
        self.value
    }
}

/// The parts that the work comes to at the weight, exactly; none where they pass 64 bits.
pub fn charge(done: Units, weight: Weight) -> Option<Parts>
    ensures { result ≡ charge_of done.0 weight.value }
{
    let share = 720_720 / weight.get() as u64;
    done.get().checked_mul(share).map(Parts::new)
}

#[cfg(test)]
mod tests {
    use super::*;
    use std::test::Fail;

    // what one unit comes to at each weight
    #[test]
    fn one_unit(rt: HostRuntime) -> Result<(), Fail> {
        let shares = [
            720_720, 360_360, 240_240, 180_180, 144_144, 120_120, 102_960, 90_090, 80_080, 72_072,
            65_520, 60_060, 55_440, 51_480, 48_048, 45_045,
        ];
        for (i, share) in shares.iter().enumerate() {
            let weight = Weight::new(i as u32 + 1)?;
            assert_eq!(rt; charge(Units::new(1), weight), Some(Parts::new(*share)));
        }
        Ok(())
    }

    // the most work that a charge is known of, at the least weight and at the largest, and one unit more
    #[test]
    fn charges_at_the_edge(rt: HostRuntime) -> Result<(), Fail> {
        for (units, weight, parts) in [
            (8, 2, Some(2_882_880)),
            (0, 7, Some(0)),
            (65_535, 1, Some(47_232_385_200)),
            (25_594_882_997_155, 1, Some(18_446_744_073_709_551_600)),
            (25_594_882_997_156, 1, None),
            (409_518_127_954_480, 16, Some(18_446_744_073_709_551_600)),
            (409_518_127_954_481, 16, None),
            (u64::MAX, 16, None),
        ] {
            assert_eq!(rt;
                charge(Units::new(units), Weight::new(weight)?),
                parts.map(Parts::new)
            );
        }
        Ok(())
    }

    #[test]
    fn weights(rt: HostRuntime) -> Result<(), Fail> {
        for number in [0, 17, 257, u32::MAX] {
            assert_eq!(rt; Weight::new(number).err(), Some(Refusal::BadWeight));
        }
        assert_eq!(rt; Weight::new(1)?.get(), 1);
        assert_eq!(rt; Weight::new(16)?.get(), 16);
        Ok(())
    }
}
