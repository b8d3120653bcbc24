//! The link that an input sets up.
ghost use Rattle.plans.specs.Links.{New};

use links::fixed::FixedLink;
use links::interrupted::Interrupted;

/// A link on which no draw was made.
#[derive(Drop)]
pub(crate) struct NewLink {
    pub(crate) link: Interrupted<FixedLink>,
    ghost new: { New link },
}
