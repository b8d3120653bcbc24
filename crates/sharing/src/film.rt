//! A film beside touch on one drive.
ghost use Rattle.std.specs.Prelude.{◌≡◌, ◌+◌, ◌≤◌, IfOk};
ghost use Rattle.sharing.specs.Shares.{turns, charged};

use crate::share::Shares;
use crate::turn::serve;
use base::refusal::Refusal;
use classes::draft::Draft;
use items::Block;
use links::fixed::FixedLink;
use links::interrupted::Interrupted;
use links::server::Server;
use shelf::shelf::Shelf;
use tags::TagStore;
use tree::tree::Tree;

/// The classes below the root; the loaders below film come behind them.
const FILM: u8 = 1;

const TOUCH: u8 = 2;

const LOADERS: u8 = 3;

/// The blocks of the film, and the sectors of each.
const BLOCKS: u32 = 60;

const SECTORS: u32 = 16;

/// The readings of touch that wait at first.
const READINGS: u32 = 2;

/// No film is played in more turns than that.
const MOST: u64 = 1_000;

/// The pulses that a turn may take.
const LIMIT: u32 = 100;

const NO_BLOCK: Block = Block {
    first: 0,
    length: 0,
};

/// A reading of touch.
const READING: Block = Block {
    first: 0,
    length: 3,
};

/// Film at weight 2 with so many loaders below it, and touch at weight 1.
pub fn kiosk<T: TagStore>(loaders: u8) -> Result<Tree<T, Block>, Refusal> {
    let mut draft = Draft::new(1);
    draft.add(0, 2, b"film")?;
    draft.add(0, 1, b"touch")?;
    for loader in 0..loaders {
        draft.add(FILM, 1, &[b'a' + loader % 26])?;
    }
    Ok(Tree::open(draft))
}

/// Submission number `number`: two readings of touch, then the blocks of the film, to one loader after the other.
fn submission(number: u32, loaders: u8) -> (u8, Block) {
    if number < READINGS || loaders == 0 {
        return (TOUCH, READING);
    }
    let block = number - READINGS;
    let loader = (block % u32::from(loaders)) as u8;
    (
        LOADERS.saturating_add(loader),
        Block {
            first: block.saturating_mul(SECTORS),
            length: SECTORS,
        },
    )
}

/// Submits the film and the first readings of touch.
pub fn submit<T: TagStore>(
    tree: &mut Tree<T, Block>,
    shelf: &mut Shelf<'_, Block>,
    loaders: u8,
) -> Result<(), Refusal> {
    for number in 0..READINGS + BLOCKS {
        let (class, item) = submission(number, loaders);
        tree.submit(shelf, class, item)?;
    }
    Ok(())
}

/// Serves turns until the film is loaded. Touch always has a reading that waits.
pub fn play<T: TagStore, S: Server>(
    tree: &mut Tree<T, Block>,
    shelf: &mut Shelf<'_, Block>,
    server: &mut S,
) -> Result<Shares, Refusal>
    ensures { IfOk result (λ s. S.Server.work server.new ≡ S.Server.work server.old + charged s) }
{
    let mut shares = Shares::NONE;
    for number in 0..MOST {
        if shares.film.turns >= u64::from(BLOCKS) {
            break;
        }
        shares = next(tree, shelf, server, shares)?;
    }
    Ok(shares)
}

/// Serves a turn, and adds it to the shares.
fn next<T: TagStore, S: Server>(
    tree: &mut Tree<T, Block>,
    shelf: &mut Shelf<'_, Block>,
    server: &mut S,
    shares: Shares,
) -> Result<Shares, Refusal>
    requires few { turns shares ≤ 1000 }
    requires fits { charged shares ≤ S.Server.work server.old }
    ensures { IfOk result (λ s. (turns s ≡ turns shares + 1) × (S.Server.work server.new + charged shares ≡ S.Server.work server.old + charged s)) }
{
    let turn = serve(tree, shelf, server, LIMIT)?;
    if turn.class != TOUCH {
        let film = shares.film.add(turn.charge);
        return Ok(Shares { film, ..shares });
    }
    let touch = shares.touch.add(turn.charge);
    refill(tree, shelf)?;
    Ok(Shares { touch, ..shares })
}

/// Submits a reading of touch.
fn refill<T: TagStore>(
    tree: &mut Tree<T, Block>,
    shelf: &mut Shelf<'_, Block>,
) -> Result<(), Refusal> {
    tree.submit(shelf, TOUCH, READING)
}

/// Loads the film with so many loaders, on a drive of 8 sectors a draw that stalls three times.
pub fn load<T: TagStore + Drop>(loaders: u8) -> Result<Shares, Refusal> {
    let mut drive = Interrupted::new(FixedLink::new(8)?);
    drive.add_outage(20, 5)?;
    drive.add_outage(100, 30)?;
    drive.add_outage(200, 3)?;
    let mut memory = [NO_BLOCK; 64];
    let mut shelf = Shelf::new(&mut memory);
    let mut tree: Tree<T, Block> = kiosk(loaders)?;
    submit(&mut tree, &mut shelf, loaders)?;
    play(&mut tree, &mut shelf, &mut drive)
}
