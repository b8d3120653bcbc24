//! One class of a tree.
use crate::name::Name;
use base::weight::Weight;

mod root;

/// A class. A node's children are listed by falling number: its first child is the one that was added last, and the next sibling
/// of a class is the child of the same node that was added before it. A class without a first child is a leaf.
// The links are class numbers and not boxes: calls and rules name classes by number, and a table's memory is fixed.
#[derive(Clone, Copy)]
pub struct Class {
    pub name: Name,
    // the root's is 0, its own number, as in the rules
    pub parent: u8,
    pub weight: Weight,
    pub depth: u8,
    pub first_child: Option<u8>,
    pub next_sibling: Option<u8>,
}
