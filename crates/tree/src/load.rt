//! What changes of a class with each call.
use base::units::Parts;

/// The items counted in the lane of a class and in those below it, and its tags.
#[derive(Clone, Copy)]
pub struct Load {
    pub backlog: u32,
    pub start: Parts,
    pub finish: Parts,
    pub vtime: Parts,
}

impl Load {
    /// Nothing waits, and no time has passed.
    pub const NONE: Load = Load {
        backlog: 0,
        start: Parts::ZERO,
        finish: Parts::ZERO,
        vtime: Parts::ZERO,
    };
}
