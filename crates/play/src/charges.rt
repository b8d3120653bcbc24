//! What each class was charged.
ghost use Rattle.std.specs.Prelude.{◌≡◌, length};

use base::units::Units;

pub(crate) mod adding;

/// The units charged to each class number.
// A table of its own: the classes are the tree's, and no length stands beside the units.
#[derive(Drop)]
pub(crate) struct Charges {
    units: [Units; 64],
    ghost size: { length units ≡ 64 },
}
