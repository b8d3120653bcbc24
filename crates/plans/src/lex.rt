//! Reading a line.
ghost use Rattle.std.specs.Prelude.{◌≡◌, ◌∷◌, ◌++◌, MatchOption};
ghost use Rattle.plans.specs.Lines.{Formed, Misformed, Proper, Reads, written};

use crate::line::Line;
use text::word::{cut, letter, number};

/// The line that begins with the letter, from what stands behind it.
fn form(letter: char, fields: &[u8]) -> Option<Line>
    ensures { Formed letter fields.now result }
{
    match letter {
        'l' => Some(Line::Link {
            rate: number(fields)?,
        }),
        'o' => {
            let (offset, length) = cut(fields, b' ')?;
            Some(Line::Outage {
                offset: number(offset)?,
                length: number(length)?,
            })
        }
        'i' => Some(Line::Item {
            cost: number(fields)?,
        }),
        _ => None,
    }
}

/// The line that the bytes write, if they are of one of the three forms.
fn line(bytes: &[u8]) -> Option<Line>
    ensures { Reads bytes.now result }
{
    let (word, fields) = cut(bytes, b' ')?;
    form(letter(word)?, fields)
}

/// The first line of a text, and what follows its line end.
pub(crate) fn first_line(text: &[u8]) -> Option<(Line, &[u8])>
    ensures { MatchOption result (Misformed text.now) (λ p. Proper p.0 × (text.now ≡ written p.0 ++ 10 ∷ p.1.now)) }
{
    let (bytes, more) = cut(text, b'\n')?;
    Some((line(bytes)?, more))
}
