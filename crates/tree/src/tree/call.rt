//! The five calls as one: phase and call together decide the answer.
ghost use Rattle.std.specs.Prelude.{◌≡◌, IfErr};
ghost use Rattle.rules.specs.Laws.{Lasts};
ghost use Rattle.rules.specs.Rules.{Step};
ghost use Rattle.shelf.specs.Lanes.{Lent};
ghost use Rattle.tree.specs.Calls.{call_of, taken, answer_of, Unspent, Draws};
ghost use Rattle.tree.specs.Trees.{state_of};

use crate::phase::Phase;
use crate::tree::{Dispatch, Grant, Tree};
use base::refusal::Refusal;
use base::units::Units;
use items::Item;
use links::server::Server;
use shelf::shelf::Shelf;
use tags::TagStore;

/// An incoming call.
pub enum Call<'g, I> {
    Submit { class: u8, item: I },
    Dispatch,
    Pulse(&'g Grant),
    End(Grant),
    GiveUp(Grant),
}

/// What an accepted call answers.
pub enum Answer {
    Accepted,
    Granted(Dispatch),
    Worked(Units),
    Closed(Units),
}

impl<T: TagStore, I: Item> Tree<T, I> {
    /// Makes a call. A refusal brings the grant back that the call took.
    pub fn call<S: Server>(
        &mut self,
        call: Call<'_, I>,
        shelf: &mut Shelf<'_, I>,
        server: &mut S,
    ) -> Result<Answer, (Refusal, Option<Grant>)>
        ensures steps { Step I.Item (state_of self.old shelf.old (S.Server.work server.old)) (call_of call.entry) (answer_of result) (state_of self.new shelf.new (S.Server.work server.new)) }
        ensures lawful { Lasts I.Item (state_of self.old shelf.old (S.Server.work server.old)) (call_of call.entry) (answer_of result) (state_of self.new shelf.new (S.Server.work server.new)) }
        ensures table { self.new.queue.table ≡ self.old.queue.table }
        ensures drew { Draws S.Server.draws self.old.phase call.entry result server.old server.new }
        ensures grant { Unspent self.old result }
        ensures lender { Lent shelf.old shelf.new }
        ensures refused { IfErr result (λ e. (e.1 ≡ taken call.entry) × (self.new ≡ self.old) × (shelf.new ≡ shelf.old)) }
    {
        match (self.phase, call) {
            (_, Call::Submit { class, item }) => self
                .submit(shelf, class, item)
                .map(|()| Answer::Accepted)
                .map_err(|refusal| (refusal, None)),
            (Phase::Free, Call::Dispatch) => self
                .dispatch(shelf)
                .map(Answer::Granted)
                .map_err(|refusal| (refusal, None)),
            (Phase::Open { .. }, Call::Dispatch) => Err((Refusal::TurnOpen, None)),
            (Phase::Free, Call::Pulse(_)) => Err((Refusal::WrongGrant, None)),
            (Phase::Open { .. }, Call::Pulse(grant)) => self
                .pulse(grant, server)
                .map(Answer::Worked)
                .map_err(|refusal| (refusal, None)),
            (Phase::Free, Call::End(grant)) => Err((Refusal::WrongGrant, Some(grant))),
            (Phase::Open { .. }, Call::End(grant)) => self
                .end(grant, shelf)
                .map(Answer::Closed)
                .map_err(|(refusal, grant)| (refusal, Some(grant))),
            (Phase::Free, Call::GiveUp(grant)) => Err((Refusal::WrongGrant, Some(grant))),
            (Phase::Open { .. }, Call::GiveUp(grant)) => self
                .give_up(grant, shelf)
                .map(Answer::Closed)
                .map_err(|(refusal, grant)| (refusal, Some(grant))),
        }
    }
}
