//! What can be read off a tree.
ghost use Rattle.std.specs.Prelude.{◌≡◌, if◌then◌else◌, Some, None, nat_lt};
ghost use Rattle.classes.specs.Names.{text_of};
ghost use Rattle.classes.specs.Tables.{class_count, named, name_by, node_above, Finds};
ghost use Rattle.std.specs.Option.{option_map};
ghost use Rattle.tree.specs.Loads.{load};

use crate::tree::Tree;
use base::units::Parts;
use classes::name::Name;
use items::Item;
use tags::TagStore;

impl<T: TagStore, I: Item> Tree<T, I> {
    /// The house number: trees of one house take each other's grants.
    pub fn house(&self) -> u32
        ensures { result ≡ self.now.house }
    {
        self.house
    }

    /// How many classes there are, the root among them.
    pub fn len(&self) -> usize
        ensures { result ≡ class_count self.now.queue.table }
    {
        self.queue.table.len()
    }

    /// The class of that name.
    pub fn find(&self, name: &[u8]) -> Option<u8>
        ensures value { result ≡ named self.now.queue.table name.now }
        ensures finds { Finds self.now.queue.table name.now result }
    {
        self.queue.table.find(name)
    }

    /// The node above a class; the root has none.
    pub fn parent(&self, class: u8) -> Option<u8>
        ensures { result ≡ node_above self.now.queue.table class }
    {
        self.queue.table.parent(class)
    }

    /// The name of the class of that number.
    pub fn name(&self, class: u8) -> Option<Name>
        ensures { option_map text_of result ≡ name_by self.now.queue.table class }
    {
        self.queue.table.name(class)
    }

    /// The start tag of the class of that number; the root's is 0.
    pub fn start_tag(&self, class: u8) -> Option<Parts>
        ensures value { result ≡ (if nat_lt class (class_count self.now.queue.table) then Some (load self.now.queue.loads class).start else None) }
        ensures root { class ≡ 0 → result ≡ Some (record { 0 = 0 }) }
    {
        if class as usize >= self.len() {
            return None;
        }
        Some(self.queue.load(class).start)
    }
}
