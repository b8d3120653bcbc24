//! One outage of a link.
ghost use Rattle.std.specs.Prelude.{◌≡◌};
ghost use Rattle.links.specs.Outages.{covers};

/// The draws from the count `offset` on, `length` of them, do nothing.
#[derive(Clone, Copy, PartialEq, Eq, Default, Debug)]
pub struct Outage {
    pub offset: u32,
    pub length: u32,
}

impl Outage {
    pub(crate) fn covers(self, count: u32) -> bool
        ensures { result ≡ covers self count }
    {
        self.offset <= count && count - self.offset < self.length
    }
}
