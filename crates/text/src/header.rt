//! Reading the first line of a trace.
ghost use Rattle.text.specs.Kinds.{Begins};

use crate::kind::Kind;
use crate::lines::Lines;
use crate::word::cut;
use base::refusal::Refusal;

/// The kind that the first line of a text names, and the lines after it; or the refusal of another first line.
pub fn header(text: &[u8]) -> Result<(Kind, Lines<'_>), Refusal>
    ensures { Begins text.now result }
{
    let (line, more) = cut(text, b'\n').ok_or(Refusal::BadFirstLine)?;
    Ok((Kind::try_from(line)?, Lines::new(more)))
}
