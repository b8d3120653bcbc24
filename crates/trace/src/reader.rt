//! Reading a whole trace.
ghost use Rattle.std.specs.Prelude.{◌≡◌, ◌<◌, ◌≤◌, length, MatchResult};
ghost use Rattle.base.specs.declared.refusal.Refusal.TheVariants.{TraceTooLong, BadFirstLine};
ghost use Rattle.text.specs.Kinds.{Titled, Untitled};
ghost use Rattle.trace.specs.Faults.{misread};
ghost use Rattle.trace.specs.Traces.{Judged};

use crate::error::ReadError;
use crate::fault::Misread;
use crate::place::OnLine;
use crate::reading::Reading;
use crate::trace::Trace;
use base::refusal::Refusal;
use std::alloc::Global;
use text::header::header;
use text::kind::Kind;
use text::lines::Lines;

/// The most bytes that a trace may have.
const LONGEST: usize = 32_768;

/// Refuses a text that is too long.
fn check_length(text: &[u8]) -> Result<(), Misread>
    ensures { MatchResult result (λ _. length text.now ≤ 32768) (λ m. (m ≡ misread TraceTooLong) × (32768 < length text.now)) }
{
    if text.len() > LONGEST {
        return Err(Misread::from(Refusal::TraceTooLong));
    }
    Ok(())
}

/// The kind of a trace, and the lines after its first.
fn title(text: &[u8]) -> Result<(Kind, Lines<'_>), Misread>
    ensures { MatchResult result (Titled text.now) (λ m. (m ≡ misread BadFirstLine) × Untitled text.now) }
{
    Ok(header(text)?)
}

/// The trace that the text writes; or its first fault, or want of memory.
pub fn read(heap: Global, text: &[u8]) -> Result<Trace<'_>, ReadError>
    ensures { Judged text.now result }
{
    check_length(text).on_line(0)?;
    let (kind, lines) = title(text).on_line(1)?;
    let mut reading = Reading::new();
    let mut events = Vec::new(heap);
    // the line's number is counted by hand, since the fault of a missing rate needs the last one
    let mut number = 1;
    for line in lines {
        number += 1;
        let Some(event) = reading.step(line).on_line(number)? else {
            continue;
        };
        events.push(event)?;
    }
    let (draft, link) = reading.finish().on_line(number)?;
    Ok(Trace {
        kind,
        draft,
        link,
        events,
    })
}
