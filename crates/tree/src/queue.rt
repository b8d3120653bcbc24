//! The classes of a tree with their backlogs and tags, and the store that keeps the backlogged ones in order.
ghost use Rattle.std.specs.Prelude.{◌≡◌, ℕ, ◌≤◌, length};
ghost use Rattle.classes.specs.Tables.{class_count, shape_of};
ghost use Rattle.tree.specs.Loads.{load, Stocked};

use crate::load::Load;
use classes::table::ClassTable;
use tags::TagStore;

pub(crate) mod descent;
pub(crate) mod reading;
pub(crate) mod settling;
pub(crate) mod walks;

/// The class table, the load of each class number, and the store in which each backlogged class but the root stands under its parent.
// `known` and `room` stay clauses of the walks: which numbers are classes, and how far a tag may rise, no type of the number can say.
// The loads are an array and no array vector: its length would have to be the class count, a fact in place of `unused`, and no plainer.
#[derive(Drop)]
pub(crate) struct Queue<T: TagStore> {
    pub(crate) table: ClassTable,
    loads: [Load; 64],
    store: T,
    ghost size: { length loads ≡ 64 },
    // the store holds, under each node's number, exactly its backlogged children with their start tags
    ghost in_step: { Stocked (shape_of table) (T.TagStore.held store) loads },
    // numbers that no class has are not charged
    ghost unused: { (k : ℕ) → class_count table ≤ k → (load loads k).finish.0 ≡ 0 },
}
