//! Work is counted in units, tags in parts.
ghost use Rattle.std.specs.Prelude.{◌≡◌, ◌+◌, ◌^◌, ◌<◌, max, Some, decimal};

use std::fmt;
use std::ops::Add;

/// Work. A unit is a millisecond of the processor or a sector of the drive.
#[derive(Clone, Copy, PartialEq, Eq, PartialOrd, Ord, Default, Debug)]
pub struct Units(u64);

/// What tags and virtual times are counted in.
// A struct beside `Units` and not one generic over what it counts: only `charge` turns work into parts.
#[derive(Clone, Copy, PartialEq, Eq, PartialOrd, Ord, Default, Debug)]
pub struct Parts(u64);

impl Units {
    pub const ZERO: Units = Units(0);

    pub const fn new(count: u64) -> Units
        ensures { result.0 ≡ count }
    {
        Units(count)
    }

    pub const fn get(self) -> u64
        ensures { result ≡ self.0 }
    {
        let Units(units) = self;
        units
    }
}

impl Add<Units> for Units {
    type Output = Units;

    ghost can_add = { λ a b. a.0 + b.0 < 2 ^ 64 };

    ghost add_gives = { λ a b r. r.0 ≡ a.0 + b.0 };

    fn add(self, other: Units) -> Units {
        Units(self.0 + other.0)
    }
}

impl fmt::Display for Units {
    ghost output = { λ units. Some (decimal units.0) };

    fn fmt<W: fmt::Write>(&self, f: &mut fmt::Formatter<W>) -> fmt::Result {
        let units = self.get();
        write!(f, "{units}")
    }
}

impl Parts {
    pub const ZERO: Parts = Parts(0);

    pub const fn new(count: u64) -> Parts
        ensures { result.0 ≡ count }
    {
        Parts(count)
    }

    pub const fn get(self) -> u64
        ensures { result ≡ self.0 }
    {
        let Parts(parts) = self;
        parts
    }

    /// The later of two tags.
    pub fn max(self, other: Parts) -> Parts
        ensures { result.0 ≡ max self.0 other.0 }
    {
        Ord::max(self, other)
    }
}

impl Add<Parts> for Parts {
    type Output = Parts;

    ghost can_add = { λ a b. a.0 + b.0 < 2 ^ 64 };

    ghost add_gives = { λ a b r. r.0 ≡ a.0 + b.0 };

    fn add(self, other: Parts) -> Parts {
        Parts(self.0 + other.0)
    }
}

impl fmt::Display for Parts {
    ghost output = { λ parts. Some (decimal parts.0) };

    fn fmt<W: fmt::Write>(&self, f: &mut fmt::Formatter<W>) -> fmt::Result {
        let parts = self.get();
        write!(f, "{parts}")
    }
}
