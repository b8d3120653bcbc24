//! One whole turn of a tree, from its dispatch to its closing.
ghost use Rattle.std.specs.Prelude.{◌≡◌, ℕ, MatchResult};
ghost use Rattle.rules.specs.Rules.{Step, dispatch, refused};
ghost use Rattle.rules.specs.State.{State};
ghost use Rattle.sharing.specs.Turns.{Holds, Serves, Keeps, Closed, Served};
ghost use Rattle.tree.specs.Trees.{state_of};

use base::refusal::Refusal;
use base::units::Units;
use items::Item;
use links::server::Server;
use shelf::shelf::Shelf;
use tags::TagStore;
use tree::tree::{Dispatch, Grant, Tree};

/// What a turn came to: the class that was served, and the charge.
#[derive(Clone, Copy)]
pub struct Turn {
    pub class: u8,
    pub charge: Units,
}

// Tree, shelf and server go together, but not in one struct: one that owned them would ask more of callers than references, and one of
// three references is not covered by the borrow checker where the three are lent. So `Holds`, which speaks of all of them, stays a clause.

/// Serves one turn: pulses until its item is done, and ends it. Where `limit` pulses did not do the item, the turn is given up.
pub fn serve<T: TagStore, I: Item, S: Server>(
    tree: &mut Tree<T, I>,
    shelf: &mut Shelf<'_, I>,
    server: &mut S,
    limit: u32,
) -> Result<Turn, Refusal>
    ensures { MatchResult result
        (λ t. Served (state_of tree.old shelf.old (S.Server.work server.old)) t.charge.0 (state_of tree.new shelf.new (S.Server.work server.new)))
        (λ e. (tree.new ≡ tree.old) × (shelf.new ≡ shelf.old) × (server.new ≡ server.old)
        × Step I.Item (state_of tree.old shelf.old 0) dispatch (refused e) (state_of tree.old shelf.old 0)) }
{
    let Dispatch { grant, class, cost } = tree.dispatch(shelf)?;
    let charge = run(tree, grant, cost, shelf, server, limit);
    Ok(Turn { class, charge })
}

/// Pulses until all the cost is done, and closes the turn; where `limit` pulses have not done it, the turn is given up.
fn run<T: TagStore, I: Item, S: Server>(
    tree: &mut Tree<T, I>,
    grant: Grant,
    cost: u32,
    shelf: &mut Shelf<'_, I>,
    server: &mut S,
    limit: u32,
) -> Units
    requires { Holds I.Item tree.old shelf.old grant }
    ensures { (b : State I) → Serves b (state_of tree.old shelf.old (S.Server.work server.old)) → Served b result.0 (state_of tree.new shelf.new (S.Server.work server.new)) }
{
    let left = pulses(tree, &grant, cost, server, limit);
    if left > 0 {
        return give_up(tree, grant, shelf);
    }
    close(tree, grant, shelf)
}

/// Pulses until all the cost is done, but no more than `limit` times, and answers what is left.
fn pulses<T: TagStore, I: Item, S: Server>(
    tree: &mut Tree<T, I>,
    grant: &Grant,
    cost: u32,
    server: &mut S,
    limit: u32,
) -> u64
    ensures { Keeps I.Item grant.now tree.old (S.Server.work server.old) tree.new (S.Server.work server.new) }
{
    let mut left = u64::from(cost);
    for _ in 0..limit {
        if left == 0 {
            break;
        }
        left = pulse(tree, grant, server, left);
    }
    left
}

/// Pulses once, and answers what is left of so much.
fn pulse<T: TagStore, I: Item, S: Server>(
    tree: &mut Tree<T, I>,
    grant: &Grant,
    server: &mut S,
    left: u64,
) -> u64
    ensures { Keeps I.Item grant.now tree.old (S.Server.work server.old) tree.new (S.Server.work server.new) }
{
    match tree.pulse(grant, server) {
        Ok(work) => left.saturating_sub(work.get()),
        Err(_) => left,
    }
}

/// Ends the open turn where its item may stop, and gives it up where it may not.
pub fn close<T: TagStore, I: Item>(
    tree: &mut Tree<T, I>,
    grant: Grant,
    shelf: &mut Shelf<'_, I>,
) -> Units
    requires { Holds I.Item tree.old shelf.old grant }
    ensures { (w : ℕ) → Closed (state_of tree.old shelf.old w) result.0 (state_of tree.new shelf.new w) }
{
    match tree.end(grant, shelf) {
        Ok(charge) => charge,
        Err((_, grant)) => give_up(tree, grant, shelf),
    }
}

/// Gives up the open turn: its own grant and shelf are never refused.
pub fn give_up<T: TagStore, I: Item>(
    tree: &mut Tree<T, I>,
    grant: Grant,
    shelf: &Shelf<'_, I>,
) -> Units
    requires { Holds I.Item tree.old shelf.now grant }
    ensures { (w : ℕ) → Closed (state_of tree.old shelf.now w) result.0 (state_of tree.new shelf.now w) }
{
    match tree.give_up(grant, shelf) {
        Ok(charge) => charge,
        Err((_, _grant)) => unreachable(),
    }
}
