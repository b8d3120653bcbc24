//! Tells how long a stalling link holds one item: standard input to standard output.
#![tactic(auto)]

use stalling::stall::stall;
use std::io;
use std::io::Read;

/// The bytes that are read: a right input is shorter, and a longer one has its first fault among so many.
const MOST: u64 = 1_024;

fn main(rt: HostRuntime) -> io::Result<()> {
    let heap = rt.alloc();
    let mut input = Vec::new(heap);
    rt.stdin().take(MOST).read_to_end(&mut input)?;
    let out = stall(heap, input.as_slice())?;
    print!(rt; "{out}")
}
