//! What film and touch got.
ghost use Rattle.std.specs.Prelude.{◌≡◌, ◌+◌, ◌^◌, ◌<◌};

use base::units::Units;

/// The turns and the charges of a class.
#[derive(Clone, Copy)]
pub struct Share {
    pub turns: u64,
    pub charge: Units,
}

/// The shares of film and of touch.
#[derive(Clone, Copy)]
pub struct Shares {
    pub film: Share,
    pub touch: Share,
}

impl Share {
    pub const NONE: Share = Share {
        turns: 0,
        charge: Units::ZERO,
    };

    /// One turn more, with its charge.
    pub fn add(self, charge: Units) -> Share
        requires { (self.turns + 1 < 2 ^ 64) × (self.charge.0 + charge.0 < 2 ^ 64) }
        ensures { (result.turns ≡ self.turns + 1) × (result.charge.0 ≡ self.charge.0 + charge.0) }
    {
        Share {
            turns: self.turns + 1,
            charge: self.charge + charge,
        }
    }
}

impl Shares {
    pub const NONE: Shares = Shares {
        film: Share::NONE,
        touch: Share::NONE,
    };
}
