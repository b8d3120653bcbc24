//! The classes of a draft or a tree, by number.
ghost use Rattle.std.specs.Prelude.{◌≤◌, length};
ghost use Rattle.classes.specs.WellFormed.{WellFormed};

use crate::class::Class;
use arrayvec::ArrayVec;

mod growth;
mod reading;

/// The most classes that a tree has.
pub const MAX_CLASSES: usize = 64;

/// The greatest depth of a class; the root has depth 0.
pub const MAX_DEPTH: u8 = 7;

/// From 1 to 64 classes, each by its number.
#[derive(Drop)]
pub struct ClassTable {
    classes: ArrayVec<Class, MAX_CLASSES>,
    ghost some: { 1 ≤ length classes.items },
    ghost few: { length classes.items ≤ 64 },
    ghost well_formed: { WellFormed classes.items },
}
