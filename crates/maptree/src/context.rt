ghost use Rattle.std.specs.Prelude.{◌≡◌, OnOk};
ghost use Rattle.maptree.specs.Answer.{moved};

use geom::Coordinate;
use mapvalues::Stack;
use mapwords::{Block, Expected};
use std::alloc::AllocError;

/// What a token is read as.
#[derive(Drop)]
pub enum Context {
    /// A keyword of a block.
    Keywords(Block),
    /// A value of a block.
    Values(Block, Expected),
    /// The latitude of a vertex, after this longitude.
    Latitude(Coordinate),
}

/// How reading goes on after a token.
#[derive(Drop)]
pub enum Move {
    /// The next token is read in this context.
    GoesOn(Context),
    /// This context is read up to its end, and then the present one again.
    Enters(Context),
    /// The present context ends.
    Leaves,
}

/// Goes on after a token of a context, inside the contexts that are open, the innermost on top.
pub fn go_on(contexts: &mut Stack<Context>, context: Context, next: Move) -> Result<(), AllocError>
    ensures { OnOk result (contexts.new ≡ moved next context contexts.old) }
{
    match next {
        Move::GoesOn(next) => contexts.push(next)?,
        Move::Enters(inner) => {
            contexts.push(context)?;
            contexts.push(inner)?;
        }
        Move::Leaves => {}
    }
    Ok(())
}
