//! Taking one line after the other.
ghost use Rattle.std.specs.Prelude.{◌≡◌, true, false, MatchResult};
ghost use Rattle.base.specs.declared.refusal.Refusal.TheVariants.{OutOfPlace};
ghost use Rattle.trace.specs.Faults.{misread};
ghost use Rattle.trace.specs.Parts.{may_follow};
ghost use Rattle.trace.specs.Readings.{Begun, follows, Taken, Stepped, Finished};

use crate::fault::Misread;
use crate::part::Part;
use crate::reading::Reading;
use base::refusal::Refusal;
use classes::draft::Draft;
use links::fixed::FixedLink;
use links::interrupted::Interrupted;
use links::outage::Outage;
use links::outages::Outages;
use text::line::{Event, Line};

impl Reading {
    /// The root alone, and no link.
    pub(crate) fn new() -> Reading
        ensures { Begun result }
    {
        Reading {
            draft: Draft::new(0),
            link: None,
            outages: Outages::new(),
            latest: Part::Classes,
        }
    }

    /// Goes on to a part, if a line of it may follow.
    fn follow(&mut self, part: Part) -> Result<(), Misread>
        ensures { MatchResult result
            (λ _. (may_follow part self.old.latest ≡ true) × (self.new ≡ follows self.old part))
            (λ m. (may_follow part self.old.latest ≡ false) × (m ≡ misread OutOfPlace)) }
    {
        if !part.may_follow(self.latest) {
            return Err(Misread::from(Refusal::OutOfPlace));
        }
        self.latest = part;
        Ok(())
    }

    /// Has the tree or the link take a line, and hands out its event. An unknown name of a parent goes to the draft as no
    /// parent, so that the draft refuses it in its turn.
    fn take<'a>(&mut self, line: Line<'a>) -> Result<Option<Event<'a>>, Misread>
        ensures { Taken self.old line.entry result self.new }
    {
        match line {
            Line::Class {
                name,
                parent,
                weight,
            } => {
                let parent = self.draft.find(parent.as_bytes());
                self.draft.add_under(parent, weight, name.as_bytes())?;
                Ok(None)
            }
            Line::Link { rate } => {
                self.link = Some(FixedLink::new(rate)?);
                Ok(None)
            }
            Line::Outage { offset, length } => {
                self.outages.add(Outage { offset, length })?;
                Ok(None)
            }
            Line::Event(event) => Ok(Some(event)),
        }
    }

    /// Judges a line, first by its form, then by its part, then by what the tree or the link says; and takes it.
    pub(crate) fn step<'a>(
        &mut self,
        line: Result<Line<'a>, Refusal>,
    ) -> Result<Option<Event<'a>>, Misread>
        ensures { Stepped self.old line.entry result self.new }
    {
        let line = line?;
        self.follow(Part::from(&line))?;
        self.take(line)
    }

    /// The draft and the link, if there is a rate.
    pub(crate) fn finish(self) -> Result<(Draft, Interrupted<FixedLink>), Misread>
        ensures { Finished self result }
    {
        let Reading {
            draft,
            link,
            outages,
            latest: _,
        } = self;
        let link = link.ok_or(Refusal::OutOfPlace)?;
        Ok((draft, Interrupted::with_outages(link, outages)))
    }
}
