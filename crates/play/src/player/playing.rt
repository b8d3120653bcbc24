//! From the first event to the last line.
ghost use Rattle.std.specs.Prelude.{◌≡◌};
ghost use Rattle.listing.specs.Listings.{Gains};
ghost use Rattle.classes.specs.Tables.{class_count};
ghost use Rattle.play.specs.Charges.{charged_at};
ghost use Rattle.play.specs.Lines.{letter as letter_of};
ghost use Rattle.play.specs.Listings.{sums};
ghost use Rattle.play.specs.Players.{PlaysAll, Finishes};

use crate::cost::OfCost;
use crate::player::Player;
use classes::name::Name;
use links::server::Server;
use listing::line::Line;
use listing::listing::Listing;
use tags::TagStore;
use text::line::Event;

/// The letter of an event.
fn letter(event: Event<'_>) -> char
    ensures { result ≡ letter_of event.entry }
{
    match event {
        Event::Submit { .. } => 'a',
        Event::Dispatch => 'd',
        Event::Pulse => 'p',
        Event::End => 'e',
        Event::GiveUp => 'g',
    }
}

impl<'a, T: TagStore, I: OfCost, S: Server> Player<'a, T, I, S> {
    /// Plays the events in order, and tells each.
    pub(crate) fn play(&mut self, listing: &mut Listing, events: &[Event<'_>])
        ensures { PlaysAll I.Item S.Server I.OfCost.item self.old listing.old events.now self.new listing.new }
    {
        for event in events {
            let outcome = self.take(*event);
            listing.push(Line::Event {
                letter: letter(*event),
                outcome,
            });
        }
    }

    /// Gives up a turn that is open, and tells it.
    pub(crate) fn finish(&mut self, listing: &mut Listing)
        ensures { Finishes I.Item S.Server I.OfCost.item self.old listing.old self.new listing.new }
    {
        if self.held.is_none() {
            return;
        }
        let outcome = self.give_up();
        listing.push(Line::Event {
            letter: 'g',
            outcome,
        });
    }

    /// Tells what each class was charged.
    pub(crate) fn tell_charges(&self, listing: &mut Listing)
        ensures { Gains listing.old (sums self.now.tree.queue.table (charged_at self.now.charges) (class_count self.now.tree.queue.table)) listing.new }
    {
        // the number is the class's, by which its name and its charge are both asked for
        for number in 0..self.tree.len() {
            let class = number as u8;
            listing.push(Line::Class {
                name: self.tree.name(class).unwrap_or(Name::root()),
                charges: self.charges.of(class),
            });
        }
    }
}
