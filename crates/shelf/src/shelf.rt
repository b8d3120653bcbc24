//! The shelf: the items that wait, in lanes.
ghost use Rattle.std.specs.Prelude.{◌≤◌, length};
ghost use Rattle.std.proofs.Props.{props};
ghost use Rattle.shelf.specs.Places.{lanes_of, Priced};

mod calls;

use crate::table::LinkTable;
use items::Item;

/// Items of one kind in the memory of the caller, up to its first 256 places: 64 lanes, each first in, first out.
#[derive(Drop)]
pub struct Shelf<'a, I: Item> {
    places: &'a mut [I],
    table: LinkTable,
    ghost fits: { table.size ≤ length places.now },
    pub ghost priced: { Priced I.Item.costs (lanes_of places.now table) } by { Prim.hlevel props },
}
