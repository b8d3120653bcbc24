//! The events, one call each.
ghost use Rattle.text.specs.declared.line.Event.TheVariants.{Submit, Dispatch as dispatched, Pulse, End, GiveUp};
ghost use Rattle.play.specs.Players.{PlaysOn};

use crate::cost::OfCost;
use crate::player::{Player, Turn};
use base::refusal::Refusal;
use base::units::Parts;
use classes::name::Name;
use links::server::Server;
use listing::line::Outcome;
use tags::TagStore;
use text::line::Event;
use tree::tree::Dispatch;

impl<'a, T: TagStore, I: OfCost, S: Server> Player<'a, T, I, S> {
    /// Plays an event.
    pub(crate) fn take(&mut self, event: Event<'_>) -> Result<Outcome, Refusal>
        ensures { PlaysOn I.Item S.Server I.OfCost.item self.old event.entry result self.new }
    {
        // a match, and no table of closures: the events are a closed set, and the check sees that none is left out
        match event {
            Event::Submit { name, cost } => self.submit(name, cost),
            Event::Dispatch => self.dispatch(),
            Event::Pulse => self.pulse(),
            Event::End => self.end(),
            Event::GiveUp => self.give_up(),
        }
    }

    /// Submits an item of a cost to the class of that name.
    fn submit(&mut self, name: &str, cost: u32) -> Result<Outcome, Refusal>
        ensures { PlaysOn I.Item S.Server I.OfCost.item self.old (Submit name.entry cost) result self.new }
    {
        let class = self
            .tree
            .find(name.as_bytes())
            .ok_or(Refusal::UnknownClass)?;
        self.tree.submit(&mut self.shelf, class, I::of_cost(cost))?;
        Ok(Outcome::Accepted)
    }

    /// Dispatches, and holds the grant.
    fn dispatch(&mut self) -> Result<Outcome, Refusal>
        ensures { PlaysOn I.Item S.Server I.OfCost.item self.old dispatched result self.new }
    {
        if self.held.is_some() {
            return Err(Refusal::TurnOpen);
        }
        let Dispatch { grant, class, cost } = self.tree.dispatch(&self.shelf)?;
        self.held = Some(Turn { grant, class });
        // A number that no class has reads as the root wherever a name is asked for, so none is told as the root too.
        Ok(Outcome::Granted {
            name: self.tree.name(class).unwrap_or(Name::root()),
            cost,
            start: self.tree.start_tag(class).unwrap_or(Parts::ZERO),
        })
    }

    /// Pulses the open turn.
    fn pulse(&mut self) -> Result<Outcome, Refusal>
        ensures { PlaysOn I.Item S.Server I.OfCost.item self.old Pulse result self.new }
    {
        let Some(turn) = &self.held else {
            return Err(Refusal::WrongGrant);
        };
        let done = self.tree.pulse(&turn.grant, &mut self.link)?;
        Ok(Outcome::Charged(done))
    }

    /// Ends the open turn, and charges its work.
    fn end(&mut self) -> Result<Outcome, Refusal>
        ensures { PlaysOn I.Item S.Server I.OfCost.item self.old End result self.new }
    {
        let Some(turn) = self.held.take() else {
            return Err(Refusal::WrongGrant);
        };
        let Turn { grant, class } = turn;
        match self.tree.end(grant, &mut self.shelf) {
            Ok(done) => {
                self.charges.add(&self.tree, class, done);
                Ok(Outcome::Charged(done))
            }
            Err((refusal, grant)) => {
                self.held = Some(Turn { grant, class });
                Err(refusal)
            }
        }
    }

    /// Gives the open turn up, and charges its work.
    pub(super) fn give_up(&mut self) -> Result<Outcome, Refusal>
        ensures { PlaysOn I.Item S.Server I.OfCost.item self.old GiveUp result self.new }
    {
        let Some(turn) = self.held.take() else {
            return Err(Refusal::WrongGrant);
        };
        let Turn { grant, class } = turn;
        match self.tree.give_up(grant, &self.shelf) {
            Ok(done) => {
                self.charges.add(&self.tree, class, done);
                Ok(Outcome::Charged(done))
            }
            Err((refusal, grant)) => {
                self.held = Some(Turn { grant, class });
                Err(refusal)
            }
        }
    }
}
