//! What a server means.
ghost use Rattle.std.specs.Prelude.{◌≡◌, ℕ, ◌+◌, ◌≤◌, true, ◌==◌};

use base::units::Units;

/// The work that no server passes.
pub const END: u64 = 1_000_000_000_000_000;

/// What does work in draws. Its meaning is one number, the work it has done.
pub trait Server {
    // the work done so far, in units
    ghost work: { Self → ℕ };

    // `draws s n d t`: asked for n units, s may do d of them and is t afterwards
    ghost draws: { Self → ℕ → ℕ → Self → Type 0 };

    /// Does at most `wanted` units, and answers how many.
    fn draw(&mut self, wanted: u32) -> u32
        ensures { draws self.old wanted result self.new };

    /// The work done so far. Reading it alters nothing.
    fn done(&self) -> Units
        ensures { result.0 ≡ work self.now };

    ghost within: { (s : Self) (n d : ℕ) (t : Self) → draws s n d t → d ≤ n };

    ghost counted: { (s : Self) (n d : ℕ) (t : Self) → draws s n d t → work t ≡ work s + d };

    ghost bounded: { (s : Self) → work s ≤ 1000000000000000 };
}

/// Whether the server has come to its end, where each draw answers 0.
pub fn at_end<S: Server>(server: &S) -> bool
    ensures decides { result ≡ (S.Server.work server.now == 1000000000000000) }
    ensures rests { result ≡ true → (n d : ℕ) (t : S) → S.Server.draws server.now n d t → d ≡ 0 }
{
    server.done().get() == END
}
