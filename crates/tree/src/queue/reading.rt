//! What can be read off a queue.
ghost use Rattle.std.specs.Prelude.{◌≡◌};
ghost use Rattle.tree.specs.Loads.{load};

use crate::load::Load;
use crate::queue::Queue;
use tags::TagStore;

impl<T: TagStore> Queue<T> {
    /// What is counted and tagged at a class; nothing at a number above 63.
    pub(crate) fn load(&self, class: u8) -> Load
        ensures { result ≡ load self.now.loads class }
    {
        self.loads
            .get(class as usize)
            .copied()
            .unwrap_or(Load::NONE)
    }
}
