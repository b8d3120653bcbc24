//! The same film by one loader and by four, beside touch, on the same stalling drive.
#![tactic(auto)]

use sharing::report::report;
use std::io;

fn main(rt: HostRuntime) -> io::Result<()> {
    let out = report(rt.alloc())?;
    print!(rt; "{out}")
}
