//! Writing a listing line by line.
ghost use Rattle.std.specs.Prelude.{◌≡◌, [], IsOk};
ghost use Rattle.listing.specs.Lines.{ended};
ghost use Rattle.listing.specs.Listings.{Gains, Holds};

use crate::line::Line;
use crate::listing::Listing;
use std::alloc::{AllocError, Global};

impl Listing {
    /// A listing without lines.
    pub fn new(heap: Global) -> Listing
        ensures whole { IsOk result.text }
        ensures empty { Holds result [] }
    {
        Listing {
            text: Ok(String::new(heap)),
        }
    }

    /// Writes a line behind the others. Want of memory is told at the end.
    pub fn push(&mut self, line: Line)
        ensures { Gains self.old (ended line) self.new }
    {
        if let Ok(text) = &mut self.text
            && let Err(wanting) = writeln!(text, "{line}")
        {
            self.text = Err(wanting);
        }
    }

    /// The text of the lines, or the error that memory was wanting.
    pub fn finish(self) -> Result<String, AllocError>
        ensures { result ≡ self.text }
    {
        self.text
    }
}

#[cfg(test)]
mod tests {
    use super::*;
    use crate::line::Outcome;
    use base::refusal::Refusal;
    use base::units::{Parts, Units};
    use classes::name::Name;
    use std::test::Fail;

    fn event(letter: char, outcome: Result<Outcome, Refusal>) -> Line {
        Line::Event { letter, outcome }
    }

    #[test]
    fn a_line_of_each_kind(rt: HostRuntime) -> Result<(), Fail> {
        let granted = Outcome::Granted {
            name: Name::new(b"film")?,
            cost: 10,
            start: Parts::new(3_603_600),
        };
        let charged = Line::Class {
            name: Name::new(b"film")?,
            charges: Units::new(8),
        };
        let lines = [
            event('a', Ok(Outcome::Accepted)),
            event('a', Err(Refusal::BadCost)),
            event('d', Ok(granted)),
            event('d', Err(Refusal::TurnOpen)),
            event('p', Ok(Outcome::Charged(Units::new(8)))),
            event('e', Err(Refusal::NoStoppingPoint)),
            charged,
        ];
        let mut listing = Listing::new(rt.alloc());
        for line in lines {
            listing.push(line);
        }
        let text = listing.finish()?;
        assert_eq!(rt;
            text.as_str(),
            "a 0\na 3\nd 0 film 10 3603600\nd 6\np 0 8\ne 10\ns film 8\n"
        );
        Ok(())
    }

    #[test]
    fn no_line(rt: HostRuntime) -> Result<(), Fail> {
        assert_eq!(rt; Listing::new(rt.alloc()).finish()?.as_str(), "");
        Ok(())
    }
}
