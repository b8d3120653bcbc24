//! Plays a trace: standard input to standard output.
#![tactic(auto)]

use play::play::play;
use std::io;
use std::io::Read;

/// The bytes that are read: one more than a trace may have.
const MOST: u64 = 32_769;

fn main(rt: HostRuntime) -> io::Result<()> {
    let heap = rt.alloc();
    let mut text = Vec::new(heap);
    rt.stdin().take(MOST).read_to_end(&mut text)?;
    let out = play(heap, text.as_slice())?;
    print!(rt; "{out}")
}
