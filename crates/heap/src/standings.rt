//! Where each class stands.
ghost use Rattle.std.specs.Prelude.{◌≡◌, ℕ};
ghost use Rattle.heap.specs.Index.{nowhere, standing, Puts, Moves};

use base::units::Parts;
use tags::number::Number;

/// The group and the tag of a class that stands, and its place in the heap of that group. The place of a class that does not stand says
/// nothing, and lies outside the pair so that it is written without a look at it.
#[derive(Clone, Copy)]
pub struct Standing {
    pub pair: Option<(Number, Parts)>,
    pub place: usize,
}

impl Standing {
    pub(crate) const NOWHERE: Standing = Standing {
        pair: None,
        place: 0,
    };
}

/// For each class where it stands.
#[derive(Drop)]
pub struct Standings {
    rows: [Standing; 64],
}

impl Standings {
    /// No class stands.
    pub(crate) fn new() -> Standings
        ensures { (k : ℕ) → standing result.rows k ≡ nowhere }
    {
        Standings {
            rows: [Standing::NOWHERE; 64],
        }
    }

    pub(crate) fn get(&self, class: Number) -> Standing
        ensures { result ≡ standing self.now.rows class.value }
    {
        self.rows[class.get() as usize]
    }

    pub(crate) fn set(&mut self, class: Number, standing: Standing)
        ensures { Puts self.old.rows self.new.rows class.value standing }
    {
        self.rows[class.get() as usize] = standing;
    }

    /// A class is now at another place of its group's heap.
    pub(crate) fn move_to(&mut self, class: Number, place: usize)
        ensures { Moves self.old.rows self.new.rows class.value place }
    {
        self.rows[class.get() as usize].place = place;
    }
}
