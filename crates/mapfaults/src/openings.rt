ghost use Rattle.std.specs.Prelude.{◌≡◌, OnOk};
ghost use Rattle.mapfaults.specs.Opening.{opened, opening, opens_block};

use maplex::Token;
use maptree::{Context, Move};
use mapvalues::Stack;
use std::alloc::AllocError;
use std::marker::Model;

/// A context that is open, with the word that opened it.
#[derive(Drop)]
pub struct Opening<'a> {
    /// What a token is read as there.
    pub context: Context,
    /// The word.
    pub word: &'a str,
    /// The line of the word.
    pub line: u64,
}

impl<'a> Model for Opening<'a> {
    ghost use Rattle.mapfaults.specs.Opening.{OpeningValue};

    ghost Value = { OpeningValue };

    ghost view = { λ o. record { context = o.context; word = o.word.now; line = o.line } };
}

impl<'a> Opening<'a> {
    /// What a token opens.
    pub fn new(context: Context, token: &Token<'a>) -> Self
        ensures { result ≡ opening context token.now }
    {
        Opening {
            context,
            word: token.text,
            line: token.line,
        }
    }

    /// Whether the word opened a block.
    pub fn is_block(&self) -> bool
        ensures { result ≡ opens_block self.now.context }
    {
        !matches!(self.context, Context::Values(..))
    }

    // The same word, which goes on in another context.
    fn becomes(self, context: Context) -> Self
        ensures { result ≡ record self.entry { context = context } }
    {
        Opening {
            context,
            word: self.word,
            line: self.line,
        }
    }
}

/// Goes on after a token in what was the innermost opening, inside the others, the innermost of which is on top.
pub fn go_on<'a>(
    openings: &mut Stack<Opening<'a>>,
    inner: Opening<'a>,
    next: Move,
    token: &Token<'a>,
) -> Result<(), AllocError>
    ensures { OnOk result (openings.new ≡ opened next token.now inner.entry openings.old) }
{
    match next {
        Move::GoesOn(context) => openings.push(inner.becomes(context))?,
        Move::Enters(context) => {
            openings.push(inner)?;
            openings.push(Opening::new(context, token))?;
        }
        Move::Leaves => {}
    }
    Ok(())
}
