//! Going over the lines.
ghost use Rattle.std.specs.Prelude.{◌≡◌, length};
ghost use Rattle.text.specs.Texts.{Steps, rest};
ghost use Rattle.std.specs.Iterator.{at_most};

use crate::line::Line;
use crate::lines::Lines;
use crate::read::line;
use crate::word::cut;
use base::refusal::Refusal;

impl<'a> Lines<'a> {
    /// The lines of the text.
    pub(crate) fn new(text: &'a [u8]) -> Lines<'a>
        ensures { rest result ≡ text.now }
    {
        Lines { rest: text }
    }
}

impl<'a> Iterator for Lines<'a> {
    type Item = Result<Line<'a>, Refusal>;

    ghost next_gives = { Steps };

    ghost remaining = { λ s. at_most (length (rest s)) };

    fn next(&mut self) -> Option<Result<Line<'a>, Refusal>> {
        if self.rest.is_empty() {
            return None;
        }
        match cut(self.rest, b'\n') {
            Some((bytes, more)) => {
                self.rest = more;
                Some(line(bytes))
            }
            None => {
                self.rest = &[];
                Some(Err(Refusal::BadLine))
            }
        }
    }
}
