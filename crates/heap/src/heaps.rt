//! The heaps of all groups, and where each class stands in them.
ghost use Rattle.std.specs.Prelude.{◌≡◌, length};
ghost use Rattle.heap.specs.Index.{group_at, place_at, Index};
ghost use Rattle.heap.specs.Cells.{size, cell};

use crate::standings::Standings;
use arrayvec::ArrayVec;
use tags::number::Number;

mod edits;
mod sift;

/// For each group a heap of the classes that stand in it, and for each class its pair and its place.
#[derive(Drop)]
pub struct Heaps {
    standings: Standings,
    heaps: [ArrayVec<Number, 64>; 64],
    ghost groups: { length heaps ≡ 64 },
    ghost index: { Index (group_at standings.rows) (place_at standings.rows) (size heaps) (cell heaps) },
}
