//! What the lines of a trace make.
use crate::part::Part;
use classes::draft::Draft;
use links::fixed::FixedLink;
use links::outages::Outages;

mod steps;

/// What the lines so far have made, and the part that the last one belongs to.
#[derive(Drop)]
pub(crate) struct Reading {
    draft: Draft,
    link: Option<FixedLink>,
    outages: Outages,
    latest: Part,
}
