//! Playing one item on a server.
ghost use Rattle.std.specs.Prelude.{IfOk};
ghost use Rattle.stalling.specs.Plays.{Played};

use crate::draw::Draw;
use links::server::Server;
use std::alloc::{AllocError, Global};

/// An item takes no more draws than that. So many do every item at every rate, if no more than a third of them are idle.
pub const MOST: u32 = 100_000;

/// The draws that an item took.
#[derive(Drop)]
pub struct Run {
    pub draws: Vec<Draw>,
    pub idle: u32,
    pub left: u32,
}

/// Draws until the item is done, or has taken the most draws that an item may take.
pub fn play<S: Server>(heap: Global, server: &mut S, cost: u32) -> Result<Run, AllocError>
    ensures { IfOk result (λ p. Played S.Server.draws server.old cost p server.new) }
{
    let mut draws = Vec::new(heap);
    let mut idle = 0;
    let mut left = cost;
    // a draw is told with its number, so the loop counts them
    for number in 0..MOST {
        if left == 0 {
            break;
        }
        let done = server.draw(left);
        draws.push(Draw {
            number,
            wanted: left,
            done,
        })?;
        if done == 0 {
            idle += 1;
        }
        left -= done;
    }
    Ok(Run { draws, idle, left })
}
