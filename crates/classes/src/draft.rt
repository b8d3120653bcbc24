//! A tree before it is opened.
ghost use Rattle.std.specs.Prelude.{◌≡◌, ℕ, ◌≤◌, MatchResult};
ghost use Rattle.rules.specs.Shape.{Sound};
ghost use Rattle.classes.specs.Additions.{addition, parent_number, Grown};
ghost use Rattle.classes.specs.Rows.{row, Alone};
ghost use Rattle.classes.specs.Tables.{class_count, shape_of, weight_of, named, Finds};

use crate::name::Name;
use crate::table::{ClassTable, MAX_CLASSES, MAX_DEPTH};
use base::refusal::Refusal;
use base::weight::Weight;

/// A house number and the classes so far. Opening a tree uses it up.
#[derive(Drop)]
pub struct Draft {
    house: u32,
    table: ClassTable,
}

impl Draft {
    /// The root alone.
    pub fn new(house: u32) -> Draft
        ensures house { result.house ≡ house }
        ensures len { class_count result.table ≡ 1 }
        ensures rows { (k : ℕ) → Alone (row result.table.classes.items k) }
    {
        Draft {
            house,
            table: ClassTable::new(),
        }
    }

    /// Adds a class under a parent, and answers its number.
    pub fn add(&mut self, parent: u8, weight: u32, name: &[u8]) -> Result<u8, Refusal>
        ensures answer { result ≡ addition self.old.table parent weight name.now }
        ensures after { MatchResult result
            (λ _. (self.new.house ≡ self.old.house) × Grown self.old.table parent weight name.now self.new.table)
            (λ _. self.new ≡ self.old) }
    {
        self.add_under(Some(parent), weight, name)
    }

    /// The same, if there is a parent: none is refused as an unknown one, in its turn.
    pub fn add_under(&mut self, parent: Option<u8>, weight: u32, name: &[u8]) -> Result<u8, Refusal>
        ensures answer { result ≡ addition self.old.table (parent_number parent) weight name.now }
        ensures after { MatchResult result
            (λ _. (self.new.house ≡ self.old.house) × Grown self.old.table (parent_number parent) weight name.now self.new.table)
            (λ _. self.new ≡ self.old) }
    {
        if self.table.len() >= MAX_CLASSES {
            return Err(Refusal::TreeFull);
        }
        let name = Name::new(name)?;
        if self.table.find(name.as_bytes()).is_some() {
            return Err(Refusal::NameTaken);
        }
        let parent = parent.ok_or(Refusal::UnknownParent)?;
        let above = self.table.class(parent).ok_or(Refusal::UnknownParent)?;
        if above.depth >= MAX_DEPTH {
            return Err(Refusal::TooDeep);
        }
        let weight = Weight::new(weight)?;
        Ok(self.table.grow(parent, weight, name))
    }

    /// The class of that name.
    pub fn find(&self, name: &[u8]) -> Option<u8>
        ensures value { result ≡ named self.now.table name.now }
        ensures finds { Finds self.now.table name.now result }
    {
        self.table.find(name)
    }

    pub fn house(&self) -> u32
        ensures { result ≡ self.now.house }
    {
        self.house
    }

    /// What a tree is opened from: the house number and the classes, which hang together and weigh as the rules ask.
    pub fn into_parts(self) -> (u32, ClassTable)
        ensures value { result ≡ (self.house, self.table) }
        ensures sound { Sound (shape_of result.1) }
        ensures weights { (k : ℕ) → (1 ≤ weight_of result.1 k) × (weight_of result.1 k ≤ 16) }
    {
        let Draft { house, table } = self;
        (house, table)
    }
}
