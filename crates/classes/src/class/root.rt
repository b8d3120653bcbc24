//! The class that every draft begins with.
ghost use Rattle.classes.specs.Rows.{Alone};

use crate::class::Class;
use crate::name::Name;
use base::weight::Weight;

/// The root, with no children yet.
impl Default for Class {
    ghost is_default = { Alone };

    fn default() -> Class {
        Class {
            name: Name::root(),
            parent: 0,
            weight: Weight::new(1).unwrap(),
            depth: 0,
            first_child: None,
            next_sibling: None,
        }
    }
}
