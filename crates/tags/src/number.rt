//! Numbers of classes and groups.
ghost use Rattle.std.specs.Prelude.{◌≡◌, ◌<◌, ◌≤◌, MatchOption};

/// The number of a class or of a group, 0 to 63.
#[derive(Clone, Copy, PartialEq, Eq, PartialOrd, Ord, Debug)]
pub struct Number {
    value: u8,
    ghost small: { value < 64 },
}

impl Number {
    /// That number, or none for one above 63.
    pub fn new(number: u8) -> Option<Number>
        ensures { MatchOption result (64 ≤ number) (λ n. n.value ≡ number) }
    {
        if number >= 64 {
            return None;
        }
        Some(Number { value: number })
    }

    pub fn get(self) -> u8
        ensures value { result ≡ self.value }
        ensures range { result < 64 }
    {
        self.value
    }
}

impl Default for Number {
    ghost is_default = { λ n. n.value ≡ 0 };

    fn default() -> Number {
        Number { value: 0 }
    }
}
