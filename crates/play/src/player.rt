//! A tree with its shelf and its link, on which events are played.
use crate::charges::Charges;
use items::Item;
use shelf::shelf::Shelf;
use tags::TagStore;
use tree::tree::{Grant, Tree};

mod events;
pub(crate) mod list;
mod playing;

/// The open turn: its grant and the leaf that it serves.
#[derive(Drop)]
pub(crate) struct Turn {
    grant: Grant,
    class: u8,
}

/// What the events of a trace are played on; the open turn; and what each class was charged. The open turn has to be given up in the end.
#[derive(Drop)]
pub(crate) struct Player<'a, T: TagStore, I: Item, S> {
    tree: Tree<T, I>,
    shelf: Shelf<'a, I>,
    link: S,
    held: Option<Turn>,
    charges: Charges,
}
