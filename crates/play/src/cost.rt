//! Items of a cost, as a trace names them.
ghost use Rattle.std.specs.Prelude.{◌≡◌, ℕ};
ghost use Rattle.std.proofs.Common.{rules};

use items::{Block, Item, Quantum};

/// An item of which a trace tells the cost alone: its task number or its first sector is 0.
pub trait OfCost: Item {
    // the item of a cost
    ghost item: { ℕ → Self };

    fn of_cost(cost: u32) -> Self
        ensures { result ≡ item cost };

    ghost priced: { (n : ℕ) → Self.Item.costs (item n) ≡ n };
}

impl OfCost for Quantum {
    ghost item = { λ n. record { task = 0; time = n } };

    ghost priced = { Prim.search rules };

    fn of_cost(cost: u32) -> Quantum {
        Quantum {
            task: 0,
            time: cost,
        }
    }
}

impl OfCost for Block {
    ghost item = { λ n. record { first = 0; length = n } };

    ghost priced = { Prim.search rules };

    fn of_cost(cost: u32) -> Block {
        Block {
            first: 0,
            length: cost,
        }
    }
}
