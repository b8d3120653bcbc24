//! What can be read off a class table.
ghost use Rattle.std.specs.Prelude.{◌≡◌};
ghost use Rattle.rules.specs.Shape.{leaf};
ghost use Rattle.std.specs.Option.{option_map};
ghost use Rattle.classes.specs.Names.{text_of};
ghost use Rattle.classes.specs.Shapes.{child_below};
ghost use Rattle.classes.specs.Tables.{class_count, shape_of, class_of, name_by, node_above, sibling_below, named, Finds};

use crate::class::Class;
use crate::name::Name;
use crate::table::ClassTable;

impl ClassTable {
    /// How many classes there are.
    pub fn len(&self) -> usize
        ensures { result ≡ class_count self.now }
    {
        self.classes.len()
    }

    /// The class of that number.
    pub fn class(&self, number: u8) -> Option<Class>
        ensures { result ≡ class_of self.now number }
    {
        self.classes.get(number as usize).copied()
    }

    /// The node above a class; the root has none.
    pub fn parent(&self, number: u8) -> Option<u8>
        ensures { result ≡ node_above self.now number }
    {
        if number == 0 {
            return None;
        }
        Some(self.class(number)?.parent)
    }

    /// The child of a node that was added last.
    pub fn first_child(&self, number: u8) -> Option<u8>
        ensures { result ≡ child_below (shape_of self.now) number (class_count self.now) }
    {
        self.class(number)?.first_child
    }

    /// The child of the same node that was added before this one.
    pub fn next_sibling(&self, number: u8) -> Option<u8>
        ensures { result ≡ sibling_below self.now number }
    {
        self.class(number)?.next_sibling
    }

    /// Whether a class has no children.
    pub fn is_leaf(&self, number: u8) -> bool
        ensures { result ≡ leaf (shape_of self.now) number }
    {
        self.first_child(number).is_none()
    }

    /// The name of the class of that number.
    pub fn name(&self, number: u8) -> Option<Name>
        ensures { option_map text_of result ≡ name_by self.now number }
    {
        self.class(number).map(|class| class.name)
    }

    /// The class of that name.
    pub fn find(&self, name: &[u8]) -> Option<u8>
        ensures value { result ≡ named self.now name.now }
        ensures finds { Finds self.now name.now result }
    {
        let number = self.classes.iter().position(|class| class.name.is(name))?;
        Some(number as u8)
    }
}
