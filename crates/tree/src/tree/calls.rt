//! Submission, dispatch and pulse.
ghost use Rattle.std.specs.Prelude.{◌≡◌, ℕ, ◌+◌, false, ◌&&◌, length, IfOk, if◌then◌else◌, None, MatchResult, OnErr, ◌==◌, nat_eq};
ghost use Rattle.classes.specs.Tables.{shape_of};
ghost use Rattle.rules.specs.Laws.{Lasts};
ghost use Rattle.rules.specs.Picks.{Chosen};
ghost use Rattle.rules.specs.Rules.{Step, submit, dispatch, pulse};
ghost use Rattle.rules.specs.Shape.{leaf};
ghost use Rattle.shelf.specs.Chains.{first};
ghost use Rattle.shelf.specs.Lanes.{lanes, Lent};
ghost use Rattle.shelf.specs.declared.shelf.Shelf.{Shelf};
ghost use Rattle.tree.specs.Answers.{grant_of, submitted, dispatched, pulsed};
ghost use Rattle.tree.specs.Counts.{queued};
ghost use Rattle.tree.specs.Draws.{Drew};
ghost use Rattle.tree.specs.Loads.{load};
ghost use Rattle.tree.specs.Trees.{state_of};
ghost use Rattle.tree.specs.Walks.{pick};

use crate::phase::Phase;
use crate::tree::{Dispatch, Grant, Tree};
use base::refusal::Refusal;
use base::units::Units;
use items::Item;
use links::server::Server;
use shelf::shelf::Shelf;
use tags::TagStore;

// What the meter and the turns never pass.
const LIMIT: u64 = 1_000_000_000_000;

impl<T: TagStore, I: Item> Tree<T, I> {
    /// Puts an item at the end of the lane of a leaf.
    pub fn submit(&mut self, shelf: &mut Shelf<'_, I>, class: u8, item: I) -> Result<(), Refusal>
        ensures steps { (w : ℕ) → Step I.Item (state_of self.old shelf.old w) (submit class item) (submitted result) (state_of self.new shelf.new w) }
        ensures lawful { (w : ℕ) → Lasts I.Item (state_of self.old shelf.old w) (submit class item) (submitted result) (state_of self.new shelf.new w) }
        ensures table { self.new.queue.table ≡ self.old.queue.table }
        ensures lender { Lent shelf.old shelf.new }
        ensures refused { OnErr result ((self.new ≡ self.old) × (shelf.new ≡ shelf.old)) }
    {
        if class as usize >= self.queue.table.len() {
            return Err(Refusal::UnknownClass);
        }
        if !self.queue.table.is_leaf(class) {
            return Err(Refusal::NotALeaf);
        }
        let cost = item.cost();
        if !(1..=65_535).contains(&cost) {
            return Err(Refusal::BadCost);
        }
        if !self.matches(shelf, class) {
            return Err(Refusal::LaneMismatch);
        }
        shelf.put(class, item)?;
        self.queue.wake(class);
        Ok(())
    }

    /// Begins a turn of the leaf whose turn it is, and serves the first item of its lane.
    pub fn dispatch(&mut self, shelf: &Shelf<'_, I>) -> Result<Dispatch, Refusal>
        ensures steps { (w : ℕ) → Step I.Item (state_of self.old shelf.now w) dispatch (dispatched result) (state_of self.new shelf.now w) }
        ensures lawful { (w : ℕ) → Lasts I.Item (state_of self.old shelf.now w) dispatch (dispatched result) (state_of self.new shelf.now w) }
        ensures table { self.new.queue.table ≡ self.old.queue.table }
        ensures chosen { (w : ℕ) → IfOk result (λ d. Chosen (state_of self.old shelf.now w) d.class) }
        ensures grant { MatchResult result (λ d. d.grant ≡ record { house = self.old.house; turn = self.old.turns + 1; spent = false }) (λ _. self.new ≡ self.old) }
    {
        let Phase::Free = self.phase else {
            return Err(Refusal::TurnOpen);
        };
        let leaf = self.pick().ok_or(Refusal::NothingBacklogged)?;
        let item = self.head(shelf, leaf).ok_or(Refusal::LaneMismatch)?;
        let cost = item.cost();
        let meter = self.meter.get() + u64::from(cost);
        let turn = self.turns + 1;
        if meter > LIMIT || turn > LIMIT {
            return Err(Refusal::LimitReached);
        }
        self.queue.advance(leaf);
        self.phase = Phase::Open {
            leaf,
            cost,
            done: 0,
        };
        self.turns = turn;
        Ok(Dispatch {
            grant: Grant {
                house: self.house,
                turn,
                spent: false,
            },
            class: leaf,
            cost,
        })
    }

    /// Draws what is still to do in the open turn, and answers what was done.
    pub fn pulse<S: Server>(&mut self, grant: &Grant, server: &mut S) -> Result<Units, Refusal>
        ensures steps { (sh : Shelf I I.Item) → Step I.Item (state_of self.old sh (S.Server.work server.old)) (pulse (grant_of grant.now)) (pulsed result) (state_of self.new sh (S.Server.work server.new)) }
        ensures lawful { (sh : Shelf I I.Item) → Lasts I.Item (state_of self.old sh (S.Server.work server.old)) (pulse (grant_of grant.now)) (pulsed result) (state_of self.new sh (S.Server.work server.new)) }
        ensures table { self.new.queue.table ≡ self.old.queue.table }
        ensures drew { Drew S.Server.draws self.old.phase result server.old server.new }
        ensures refused { OnErr result (self.new ≡ self.old) }
    {
        let Phase::Open { leaf, cost, done } = self.phase else {
            return Err(Refusal::WrongGrant);
        };
        if !self.gave(grant) {
            return Err(Refusal::WrongGrant);
        }
        if done == cost {
            return Ok(Units::ZERO);
        }
        let work = server.draw(cost - done);
        self.phase = Phase::Open {
            leaf,
            cost,
            done: done + work,
        };
        Ok(Units::new(u64::from(work)))
    }

    /// The leaf whose turn it is.
    fn pick(&self) -> Option<u8>
        ensures { result ≡ pick (T.TagStore.held self.now.queue.store) (leaf (shape_of self.now.queue.table) 0) (load self.now.queue.loads 0).backlog }
    {
        self.queue.pick()
    }

    /// Whether a grant has this house's number and that of the last turn.
    pub(super) fn gave(&self, grant: &Grant) -> bool
        ensures { result ≡ (grant.now.house == self.now.house && grant.now.turn == self.now.turns) }
    {
        grant.house == self.house && grant.turn == self.turns
    }

    /// Whether a lane has as many items as the tree counts in it.
    pub(super) fn matches(&self, shelf: &Shelf<'_, I>, lane: u8) -> bool
        ensures { result ≡ (length (lanes shelf.now lane) == queued (shape_of self.now.queue.table) self.now.queue.loads lane) }
    {
        let counted = if self.queue.table.is_leaf(lane) {
            self.queue.load(lane).backlog
        } else {
            0
        };
        u32::from(shelf.len(lane)) == counted
    }

    /// The first item of a lane that has as many items as the tree counts in it.
    pub(super) fn head(&self, shelf: &Shelf<'_, I>, lane: u8) -> Option<I>
        ensures { result ≡ (if nat_eq (length (lanes shelf.now lane)) (queued (shape_of self.now.queue.table) self.now.queue.loads lane) then first (lanes shelf.now lane) else None) }
    {
        if !self.matches(shelf, lane) {
            return None;
        }
        shelf.head(lane)
    }
}
