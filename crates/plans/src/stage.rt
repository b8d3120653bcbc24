//! What an input has set up, line by line.
ghost use Rattle.std.specs.Prelude.{◌≡◌, Some, Ok, Err, MatchResult};
ghost use Rattle.links.specs.Listed.{listed};
ghost use Rattle.plans.specs.Inputs.{missing};
ghost use Rattle.plans.specs.Links.{New};
ghost use Rattle.plans.specs.Readings.{complete, taken};
ghost use Rattle.plans.specs.Stages.{reading};

use crate::fault::Wrong;
use crate::line::Line;
use crate::link::NewLink;
use crate::read::Plan;
use base::refusal::Refusal;
use links::fixed::FixedLink;
use links::interrupted::Interrupted;

/// What the lines so far have set up: nothing, a link, or a link and an item.
#[derive(Drop)]
pub(crate) enum Stage {
    Start,
    Linked(NewLink),
    Complete(NewLink, u32),
}

impl Stage {
    /// What stands after one line more, or why the line is refused: the first gives the rate, a later one adds an outage,
    /// and the last gives the item.
    pub(crate) fn take(self, line: Line) -> Result<Stage, Refusal>
        ensures { MatchResult result (λ s. taken (reading self) line ≡ Ok (reading s)) (λ e. taken (reading self) line ≡ Err e) }
    {
        // a match, and no closures: stage and line together are a closed set of cases
        match (self, line) {
            (Stage::Start, Line::Link { rate }) => {
                let link = Interrupted::new(FixedLink::new(rate)?);
                Ok(Stage::Linked(NewLink { link }))
            }
            (Stage::Linked(mut new), Line::Outage { offset, length }) => {
                new.link.add_outage(offset, length)?;
                Ok(Stage::Linked(new))
            }
            (Stage::Linked(new), Line::Item { cost }) => {
                if !(1..=65_535).contains(&cost) {
                    return Err(Refusal::BadCost);
                }
                Ok(Stage::Complete(new, cost))
            }
            _ => Err(Refusal::OutOfPlace),
        }
    }

    /// What is set up behind the last line, or what is missing there.
    pub(crate) fn plan(self) -> Result<Plan, Wrong>
        ensures { MatchResult result
            (λ p. (reading self ≡ complete p.link.below.rate (listed p.link.outages) p.cost) × New p.link)
            (λ w. missing (reading self) ≡ Some w) }
    {
        match self {
            Stage::Start => Err(Wrong::NoRate),
            Stage::Linked(_) => Err(Wrong::NoItem),
            Stage::Complete(new, cost) => Ok(Plan {
                link: new.link,
                cost,
            }),
        }
    }
}
