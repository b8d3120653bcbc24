//! A trace that was read.
use classes::draft::Draft;
use links::fixed::FixedLink;
use links::interrupted::Interrupted;
use text::kind::Kind;
use text::line::Event;

/// What a trace asks for: the kind of its items, its classes, its link, and the events in order.
#[derive(Drop)]
pub struct Trace<'a> {
    pub kind: Kind,
    pub draft: Draft,
    pub link: Interrupted<FixedLink>,
    pub events: Vec<Event<'a>>,
}
