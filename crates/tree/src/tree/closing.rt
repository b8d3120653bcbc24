//! Ending and giving up.
ghost use Rattle.std.specs.Prelude.{◌≡◌, ℕ, ◌+◌, ◌<◌, ◌≤◌, IfErr};
ghost use Rattle.classes.specs.Tables.{shape_of};
ghost use Rattle.rules.specs.Laws.{Lasts};
ghost use Rattle.rules.specs.Rules.{Step, end_turn, give_up};
ghost use Rattle.shelf.specs.Lanes.{Lent};
ghost use Rattle.tree.specs.Answers.{grant_of, closed_by};
ghost use Rattle.tree.specs.Closings.{Closes};
ghost use Rattle.tree.specs.Counts.{queued};
ghost use Rattle.tree.specs.Trees.{state_of};

use crate::phase::Phase;
use crate::queue::settling::Closing;
use crate::tree::{Grant, Tree};
use base::refusal::Refusal;
use base::units::Units;
use items::Item;
use shelf::shelf::Shelf;
use tags::TagStore;

impl<T: TagStore, I: Item> Tree<T, I> {
    /// Closes the open turn at a stopping point of its item, and answers the charge. The item leaves its lane when all its cost is done;
    /// otherwise what is left takes its place.
    pub fn end(&mut self, grant: Grant, shelf: &mut Shelf<'_, I>) -> Result<Units, (Refusal, Grant)>
        ensures steps { (w : ℕ) → Step I.Item (state_of self.old shelf.old w) (end_turn (grant_of grant)) (closed_by result) (state_of self.new shelf.new w) }
        ensures lawful { (w : ℕ) → Lasts I.Item (state_of self.old shelf.old w) (end_turn (grant_of grant)) (closed_by result) (state_of self.new shelf.new w) }
        ensures table { self.new.queue.table ≡ self.old.queue.table }
        ensures lender { Lent shelf.old shelf.new }
        ensures refused { IfErr result (λ e. (e.1 ≡ grant) × (self.new ≡ self.old) × (shelf.new ≡ shelf.old)) }
    {
        let Phase::Open { leaf, cost, done } = self.phase else {
            return Err((Refusal::WrongGrant, grant));
        };
        if !self.gave(&grant) {
            return Err((Refusal::WrongGrant, grant));
        }
        // not by `ok_or`, which would take the grant along where there is an item
        let Some(item) = self.head(shelf, leaf) else {
            return Err((Refusal::LaneMismatch, grant));
        };
        if item.cost() != cost {
            return Err((Refusal::LaneMismatch, grant));
        }
        if !item.may_stop(done) {
            return Err((Refusal::NoStoppingPoint, grant));
        }
        let closing = Closing {
            done,
            gone: done == cost,
        };
        if closing.gone {
            let _ = shelf.remove(leaf);
        } else {
            let _ = shelf.leave_rest(leaf, done);
        }
        self.close(leaf, closing);
        let mut grant = grant;
        grant.spent = true;
        Ok(Units::new(u64::from(done)))
    }

    /// Closes the open turn at any point, and answers the charge. The item stays as it was at dispatch.
    pub fn give_up(&mut self, grant: Grant, shelf: &Shelf<'_, I>) -> Result<Units, (Refusal, Grant)>
        ensures steps { (w : ℕ) → Step I.Item (state_of self.old shelf.now w) (give_up (grant_of grant)) (closed_by result) (state_of self.new shelf.now w) }
        ensures lawful { (w : ℕ) → Lasts I.Item (state_of self.old shelf.now w) (give_up (grant_of grant)) (closed_by result) (state_of self.new shelf.now w) }
        ensures table { self.new.queue.table ≡ self.old.queue.table }
        ensures refused { IfErr result (λ e. (e.1 ≡ grant) × (self.new ≡ self.old)) }
    {
        let Phase::Open {
            leaf,
            cost: _,
            done,
        } = self.phase
        else {
            return Err((Refusal::WrongGrant, grant));
        };
        if !self.gave(&grant) {
            return Err((Refusal::WrongGrant, grant));
        }
        if !self.matches(shelf, leaf) {
            return Err((Refusal::LaneMismatch, grant));
        }
        self.close(leaf, Closing { done, gone: false });
        let mut grant = grant;
        grant.spent = true;
        Ok(Units::new(u64::from(done)))
    }

    /// The turn of a leaf is over: its work is charged, and the tree is free.
    fn close(&mut self, leaf: u8, closing: Closing)
        requires some { 0 < queued (shape_of self.old.queue.table) self.old.queue.loads leaf }
        requires room { self.old.meter.0 + closing.done ≤ 1000000000000 }
        ensures { Closes self.old leaf closing.done closing.gone self.new }
    {
        self.queue.settle(leaf, closing);
        self.meter = self.meter + Units::new(u64::from(closing.done));
        self.phase = Phase::Free;
    }
}
