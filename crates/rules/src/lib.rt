//! The rules of the five calls on a class tree, and the laws that no history of calls breaks.
#![tactic(auto)]

ghost use Rattle.std.specs.Prelude.{◌≡◌, true};
ghost use Rattle.rules.specs.Figures.{figures, all_agree};
ghost use Rattle.rules.specs.Example.{played, expected};
ghost use Rattle.rules.specs.Laws.{Lawful, Onward};
ghost use Rattle.rules.specs.Picks.{Picks};
ghost use Rattle.rules.specs.Ready.{Accepts};

use items::Item;

/// A dispatch serves the leaf that is reached by the least start tags, and a call is accepted exactly when nothing in the table refuses it.
pub fn rules_stand<I: Item>() -> u8
    ensures picks { Picks I.Item }
    ensures accepts { Accepts I.Item }
{
    0
}

/// Every history of calls keeps the laws.
pub fn laws_stand<I: Item>() -> u8
    ensures { Lawful I.Item }
{
    0
}

/// A call that follows the rules leads from any history to one that keeps the laws.
pub fn laws_last<I: Item>() -> u8
    ensures { Onward I.Item }
{
    0
}

/// The figures of the rules are what they have to be, and the worked example comes out as it is told.
pub fn figures_stand() -> u8
    ensures figures { all_agree figures ≡ true }
    ensures example { played ≡ expected }
{
    0
}
