//! How a refusal gets its layer, its word and its line, and how a fault is written.
ghost use Rattle.std.specs.Prelude.{◌≡◌, ℕ, Some};
ghost use Rattle.trace.specs.Faults.{layer_of, word_of, misread, placed, named, told};

use crate::fault::{Fault, Layer, Misread};
use base::refusal::Refusal;
use std::fmt;

/// The layer that a refusal comes from.
impl From<Refusal> for Layer {
    ghost from_gives = { λ e l. l ≡ layer_of e };

    fn from(refusal: Refusal) -> Layer {
        match refusal {
            Refusal::TraceTooLong
            | Refusal::BadFirstLine
            | Refusal::BadLine
            | Refusal::OutOfPlace => Layer::Text,
            Refusal::BadOutage | Refusal::BadRate => Layer::Link,
            _ => Layer::Tree,
        }
    }
}

/// The word of a line that a refusal speaks of: the name or the rate, the parent, the weight, or 0 for the whole line.
fn word(refusal: Refusal) -> u8
    ensures { result ≡ word_of refusal }
{
    match refusal {
        Refusal::BadName | Refusal::NameTaken | Refusal::BadRate => 2,
        Refusal::UnknownParent | Refusal::TooDeep => 3,
        Refusal::BadWeight => 4,
        _ => 0,
    }
}

impl From<Refusal> for Misread {
    ghost from_gives = { λ e r. r ≡ misread e };

    fn from(refusal: Refusal) -> Misread {
        Misread {
            layer: Layer::from(refusal),
            word: word(refusal),
            refusal,
        }
    }
}

/// Results that gain the line on which they came.
pub trait OnLine {
    type Out;

    ghost lined: { Self → ℕ → Self.Out };

    fn on_line(self, line: u32) -> Self::Out
        ensures { result ≡ lined self line };
}

impl<T> OnLine for Result<T, Misread> {
    type Out = Result<T, Fault>;

    ghost lined = { λ r line. placed line r };

    fn on_line(self, line: u32) -> Result<T, Fault> {
        self.map_err(|misread| Fault { line, misread })
    }
}

impl fmt::Display for Layer {
    ghost output = { λ l. Some (named l) };

    fn fmt<W: fmt::Write>(&self, f: &mut fmt::Formatter<W>) -> fmt::Result {
        match self {
            Layer::Text => write!(f, "text"),
            Layer::Tree => write!(f, "tree"),
            Layer::Link => write!(f, "link"),
        }
    }
}

impl fmt::Display for Fault {
    ghost output = { λ x. Some (told x) };

    fn fmt<W: fmt::Write>(&self, f: &mut fmt::Formatter<W>) -> fmt::Result {
        let Fault { line, misread } = self;
        let Misread {
            layer,
            word,
            refusal,
        } = misread;
        let number = refusal.number();
        write!(f, "! {layer} {line} {word} {number}")
    }
}
