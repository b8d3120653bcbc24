//! Reading an input.
ghost use Rattle.plans.specs.Inputs.{Judged};

use crate::fault::Fault;
use crate::lex::first_line;
use crate::stage::Stage;
use base::refusal::Refusal;
use links::fixed::FixedLink;
use links::interrupted::Interrupted;

/// What an input sets up: a link and the cost of the item.
#[derive(Drop)]
pub struct Plan {
    pub link: Interrupted<FixedLink>,
    pub cost: u32,
}

/// What the input sets up, or its first fault.
pub fn read(input: &[u8]) -> Result<Plan, Fault>
    ensures { Judged input.now result }
{
    let mut stage = Stage::Start;
    let mut rest = input;
    // counted by hand: behind the last line it is the number of the one that is missing
    let mut number = 1;
    while !rest.is_empty() {
        let (line, more) = first_line(rest).ok_or(Fault::refused(number, Refusal::BadLine))?;
        stage = stage
            .take(line)
            .map_err(|refusal| Fault::refused(number, refusal))?;
        rest = more;
        number += 1;
    }
    stage.plan().map_err(|wrong| Fault {
        line: number,
        wrong,
    })
}
