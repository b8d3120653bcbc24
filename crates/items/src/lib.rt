//! What an item is to the scheduler, and the two kinds of items.
#![tactic(auto)]

ghost use Rattle.std.specs.Prelude.{◌≡◌, Bool, true, false, ℕ, ◌-◌, ◌<◌, leb, eqb};
ghost use Rattle.items.specs.Kinds.{quantum_left};
ghost use Rattle.std.proofs.Common.{rules};

/// An item of work. Each question is answered by the item and the units done alone.
pub trait Item: Copy {
    // the units it takes
    ghost costs: { Self → ℕ };

    // it may stop after so many units
    ghost stops: { Self → ℕ → Bool };

    // what is left of it after so many units
    ghost left: { Self → ℕ → Self };

    fn cost(&self) -> u32
        ensures { result ≡ costs self.now };

    fn may_stop(&self, done: u32) -> bool
        ensures { result ≡ stops self.now done };

    fn rest(&self, done: u32) -> Self
        ensures { result ≡ left self.now done };

    ghost at_cost: { (x : Self) → stops x (costs x) ≡ true };

    ghost never_above: { (x : Self) (d : ℕ) → costs x < d → stops x d ≡ false };

    ghost left_costs: { (x : Self) (d : ℕ) → d < costs x → stops x d ≡ true → costs (left x d) ≡ costs x - d };

    ghost left_whole: { (x : Self) (d : ℕ) → stops x d ≡ false → left x d ≡ x };
}

/// Time of the processor for one task. It may stop after any unit.
#[derive(Clone, Copy, PartialEq, Eq, Debug)]
pub struct Quantum {
    pub task: u32,
    pub time: u32,
}

impl Item for Quantum {
    ghost costs = { λ q. q.time };

    ghost stops = { λ q d. leb d q.time };

    ghost left = { quantum_left };

    ghost at_cost = { Prim.search rules };

    ghost never_above = { Prim.search rules };

    ghost left_costs = { Prim.search rules };

    ghost left_whole = { Prim.search rules };

    fn cost(&self) -> u32 {
        self.time
    }

    fn may_stop(&self, done: u32) -> bool {
        done <= self.time
    }

    fn rest(&self, done: u32) -> Quantum {
        if done > self.time {
            return *self;
        }
        Quantum {
            time: self.time - done,
            ..*self
        }
    }
}

/// Sectors of the drive that are read in one piece. It may stop only at its full length.
#[derive(Clone, Copy, PartialEq, Eq, Debug)]
pub struct Block {
    pub first: u32,
    pub length: u32,
}

impl Item for Block {
    ghost costs = { λ b. b.length };

    ghost stops = { λ b d. eqb d b.length };

    ghost left = { λ b _. b };

    ghost at_cost = { Prim.search rules };

    ghost never_above = { Prim.search rules };

    ghost left_costs = { Prim.search rules };

    ghost left_whole = { Prim.search rules };

    fn cost(&self) -> u32 {
        self.length
    }

    fn may_stop(&self, done: u32) -> bool {
        done == self.length
    }

    fn rest(&self, _done: u32) -> Block {
        *self
    }
}
