//! One draw, as it is told.
ghost use Rattle.std.specs.Prelude.{Some};
ghost use Rattle.stalling.specs.Draws.{draw_text};

use std::fmt;

/// A draw: its number, counted from 0, the units that were wanted, and those that were done.
#[derive(Clone, Copy, PartialEq, Eq, Debug)]
pub struct Draw {
    pub number: u32,
    pub wanted: u32,
    pub done: u32,
}

impl fmt::Display for Draw {
    ghost output = { λ x. Some (draw_text x) };

    fn fmt<W: fmt::Write>(&self, f: &mut fmt::Formatter<W>) -> fmt::Result {
        let Draw {
            number,
            wanted,
            done,
        } = *self;
        write!(f, "draw {number} wanted {wanted} done {done}")
    }
}
