//! The name of a class, kept by value.
ghost use Rattle.std.specs.Prelude.{◌≡◌, true};
ghost use Rattle.classes.specs.Words.{is_name};

use arrayvec::ArrayString;

pub mod text;

/// The most bytes that a name has.
const MAX_BYTES: usize = 8;

/// One to eight bytes of a to z and 0 to 9.
#[derive(Clone, Copy, Debug)]
pub struct Name {
    text: ArrayString<MAX_BYTES>,
    ghost proper: { is_name text.bytes ≡ true },
}
