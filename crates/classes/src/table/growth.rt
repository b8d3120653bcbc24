//! How a class table comes to be: the root, then one class after another.
ghost use Rattle.std.specs.Prelude.{◌≡◌, ℕ, ◌<◌, None};
ghost use Rattle.classes.specs.Additions.{Grown};
ghost use Rattle.classes.specs.Names.{text_of};
ghost use Rattle.classes.specs.Rows.{row, Alone};
ghost use Rattle.classes.specs.Shapes.{depth};
ghost use Rattle.classes.specs.Tables.{class_count, shape_of, named};

use crate::class::Class;
use crate::name::Name;
use crate::table::ClassTable;
use arrayvec::ArrayVec;
use base::weight::Weight;

impl ClassTable {
    /// The root alone.
    pub(crate) fn new() -> ClassTable
        ensures len { class_count result ≡ 1 }
        ensures rows { (k : ℕ) → Alone (row result.classes.items k) }
    {
        let mut classes = ArrayVec::new();
        classes.push(Class::default());
        ClassTable { classes }
    }

    /// Adds a class in front of its parent's other children, and answers its number.
    pub(crate) fn grow(&mut self, parent: u8, weight: Weight, name: Name) -> u8
        requires room { class_count self.old < 64 }
        requires known { parent < class_count self.old }
        requires shallow { depth (shape_of self.old) parent < 7 }
        requires fresh { named self.old (text_of name) ≡ None }
        ensures value { result ≡ class_count self.old }
        ensures grown { Grown self.old parent weight.value (text_of name) self.new }
    {
        let number = self.classes.len() as u8;
        let above = &mut self.classes[parent as usize];
        let class = Class {
            name,
            parent,
            weight,
            depth: above.depth + 1,
            first_child: None,
            next_sibling: above.first_child.replace(number),
        };
        self.classes.push(class);
        number
    }
}
