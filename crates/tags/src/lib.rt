//! Tag stores: which class stands in which group, with which tag, and what is least there. Classes and groups have numbers from 0 to 63.
#![tactic(auto)]

ghost use Rattle.std.specs.Prelude.{◌≡◌, if◌then◌else◌, Some, None};
ghost use Rattle.tags.specs.Held.{Held, Small, nothing, with, tag_of, may_put, least_of, Looks};

pub mod number;

use base::units::Parts;

/// A set of pairs of class number and tag for each group 0 to 63. A class 0 to 63 stands in at most one pair of the whole store.
pub trait TagStore: Sized {
    // for each class the group and the tag of its pair, or none
    ghost held: { Self → Held };

    /// A store with no pair.
    fn empty() -> Self
        ensures { held result ≡ nothing };

    /// Puts the class with its tag into the group. The answer is no, and nothing is altered, exactly when the group or the class is above 63 or the class stands already.
    fn put(&mut self, group: u8, class: u8, tag: Parts) -> bool
        ensures answer { result ≡ may_put (held self.old) group class }
        ensures after { held self.new ≡ (if result then with (held self.old) class (Some (group, tag)) else held self.old) };

    /// Class and tag of the pair of the group that has the least tag, and of such pairs the lowest class. None exactly when the group has no pair.
    fn least(&self, group: u8) -> Option<(u8, Parts)>
        ensures value { result ≡ least_of (held self.now) group }
        ensures looks { Looks (held self.now) group 64 result };

    /// Removes the pair of the class and answers its tag. None, and nothing is altered, exactly when the class has no pair.
    fn take(&mut self, class: u8) -> Option<Parts>
        ensures answer { result ≡ tag_of (held self.old class) }
        ensures after { held self.new ≡ with (held self.old) class None };

    // classes that stand, and the groups that they stand in, are below 64
    ghost small: { (s : Self) → Small (held s) };
}
