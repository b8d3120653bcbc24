//! The outages of a link, in order.
ghost use Rattle.std.specs.Prelude.{◌≡◌, ◌≤◌, true, length};
ghost use Rattle.links.specs.Outages.{in_order};

use crate::outage::Outage;
use arrayvec::ArrayVec;

pub mod table;

/// Up to 16 outages, none empty, each from the end of the one before it on or later.
#[derive(Drop)]
pub struct Outages {
    list: ArrayVec<Outage, 16>,
    ghost few: { length list.items ≤ 16 },
    ghost sorted: { in_order 0 list.items ≡ true },
}
