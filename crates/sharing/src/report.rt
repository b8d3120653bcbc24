//! Telling the shares.
ghost use Rattle.std.specs.Prelude.{◌≡◌, ◌++◌, string_bytes, OnOk};
ghost use Rattle.sharing.specs.Shares.{line_text, thousandths};

use crate::film::load;
use crate::share::{Share, Shares};
use heap::HeapStore;
use std::alloc::{AllocError, Global};

/// Loads the film with one loader and with four, and tells what film and touch got each time.
pub fn report(heap: Global) -> Result<String, AllocError> {
    let mut out = String::new(heap);
    for loaders in [1, 4] {
        writeln!(out, "loaders {loaders}")?;
        match load::<HeapStore>(loaders) {
            Ok(shares) => write_shares(&mut out, shares)?,
            Err(refusal) => writeln!(out, "refused: {}", refusal.number())?,
        }
    }
    Ok(out)
}

fn write_shares(out: &mut String, shares: Shares) -> Result<(), AllocError> {
    let all = shares
        .film
        .charge
        .get()
        .saturating_add(shares.touch.charge.get());
    write_line(out, "film", shares.film, all)?;
    write_line(out, "touch", shares.touch, all)
}

/// Appends the line of a class, which got that share of all units.
fn write_line(out: &mut String, name: &str, share: Share, all: u64) -> Result<(), AllocError>
    ensures { OnOk result (string_bytes out.new ≡ string_bytes out.old ++ line_text name.now share.turns share.charge.0 (thousandths share.charge.0 all)) }
{
    let part = thousandths(share.charge.get(), all);
    let Share { turns, charge } = share;
    writeln!(out, "{name} {turns} turns, {charge} units, {part} of 1000")
}

/// How many thousandths a part is of a whole, rounded down.
fn thousandths(part: u64, whole: u64) -> u64
    ensures { result ≡ thousandths part whole }
{
    part.saturating_mul(1_000).checked_div(whole).unwrap_or(0)
}
