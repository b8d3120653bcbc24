//! Telling the draws of an item.
ghost use Rattle.std.specs.Prelude.{◌≡◌, IfOk, Some, string_bytes};
ghost use Rattle.stalling.specs.Listings.{run_text};

use crate::play::Run;
use std::alloc::{AllocError, Global};
use std::fmt;

impl fmt::Display for Run {
    ghost output = { λ r. Some (run_text r) };

    /// The draws, one a line, and how many there were, how many were idle, and what is left.
    fn fmt<W: fmt::Write>(&self, f: &mut fmt::Formatter<W>) -> fmt::Result {
        for draw in &self.draws {
            writeln!(f, "{draw}")?;
        }
        let draws = self.draws.len();
        let idle = self.idle;
        let left = self.left;
        if left == 0 {
            writeln!(f, "draws {draws}, idle {idle}")
        } else {
            writeln!(f, "stopped: draws {draws}, idle {idle}, left {left}")
        }
    }
}

impl Run {
    /// The draws, one a line, and what they come to.
    pub fn listing(&self, heap: Global) -> Result<String, AllocError>
        ensures { IfOk result (λ out. string_bytes out ≡ run_text self.now) }
    {
        self.to_string(heap)
    }
}
