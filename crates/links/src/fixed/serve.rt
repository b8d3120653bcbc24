//! What a link of a fixed rate does.
ghost use Rattle.links.specs.Fixed.{Fixes};
ghost use Rattle.std.proofs.Common.{rules};

use crate::fixed::FixedLink;
use crate::server::{END, Server};
use base::units::Units;

impl Server for FixedLink {
    ghost work = { λ s. s.done.0 };

    ghost draws = { Fixes };

    ghost within = { Prim.search rules };

    ghost counted = { Prim.search rules };

    ghost bounded = { Prim.search rules };

    fn draw(&mut self, wanted: u32) -> u32 {
        let left = END - self.done.get();
        let done = u64::from(wanted.min(self.rate)).min(left);
        self.done = self.done + Units::new(done);
        done as u32
    }

    fn done(&self) -> Units {
        self.done
    }
}
