ghost use Rattle.std.specs.Prelude.{◌≡◌, ◌≤◌, length, IfOk, IfErr};
ghost use Rattle.maplex.specs.declared.fault.Tail.TheVariants.{Ends, Breaks};
ghost use Rattle.maplex.specs.Position.{further};
ghost use Rattle.maplex.specs.Token.{step, Stops, Reads};

use crate::cursor::Cursor;
use crate::extent::extent_of;
use crate::fault::{LexFault, Tail};
use crate::text::checked_text;
use crate::token::{TOKEN_LIMIT, Token};
use std::marker::Model;

/// One step of reading, at a position with no blank before the token: the token and how many bytes
/// it takes, or what comes after the last one.
pub fn step<'a>(at: &Cursor<'a>) -> Result<(Token<'a>, usize), Tail>
    ensures token { IfOk result (λ t. step at.now ≡ Reads t.0 (further t.1 at.now)) }
    ensures within { IfOk result (λ t. t.1 ≤ length at.now.rest) }
    ensures limit { IfOk result (λ t. length t.0.text ≤ TOKEN_LIMIT) }
    ensures tail { IfErr result (λ tail. step at.now ≡ Stops tail) }
{
    let rest = at.rest();
    let line = at.line();
    let [first, others @ ..] = rest else {
        return Err(Tail::Ends(line));
    };
    let extent = match extent_of(*first, others) {
        Ok(extent) => extent,
        Err(kind) => return Err(Tail::Breaks(LexFault { line, kind })),
    };
    let border_len = extent.border_len();
    match checked_text(&rest[border_len..border_len + extent.size], line) {
        Ok(text) => Ok((
            Token {
                shape: extent.shape,
                text,
                line,
            },
            extent.size + 2 * border_len,
        )),
        Err(fault) => Err(Tail::Breaks(fault)),
    }
}

/// The tokens of a source, one after another. Contracts see what is left: the tokens and their tail.
///
/// Reading takes no memory, and looks at each byte a few times at most.
#[derive(Drop)]
pub struct Tokens<'a> {
    at: Cursor<'a>,
}

impl<'a> Model for Tokens<'a> {
    ghost use Rattle.maplex.specs.Lexed.{Lexed, lexed_from};

    ghost Value = { Lexed };

    ghost view = { λ t. lexed_from t.at };
}

impl<'a> Tokens<'a> {
    ghost use Rattle.maplex.specs.Lexed.{lexed, stopped, ended, with_token, line_of};

    /// The tokens of the source, which may be any bytes of any length.
    pub fn new(source: &'a [u8]) -> Self
        ensures { result ≡ lexed source.now }
    {
        Tokens {
            at: Cursor::new(source),
        }
    }

    /// The next token, whose text is a slice of the source, or what comes after the last one. After a fault nothing
    /// is left but an end, on the line of the fault.
    pub fn next(&mut self) -> Result<Token<'a>, Tail>
        ensures token { IfOk result (λ t. self.old ≡ with_token t self.new) }
        ensures limit { IfOk result (λ t. length t.text ≤ TOKEN_LIMIT) }
        ensures tail { IfErr result (λ tail. self.old ≡ stopped tail) }
        ensures after { IfErr result (λ tail. self.new ≡ ended (line_of tail)) }
    {
        self.at.skip_blanks();
        match step(&self.at) {
            Ok((token, count)) => {
                self.at.pass(count);
                Ok(token)
            }
            Err(tail) => {
                self.at = Cursor::end(tail.line());
                Err(tail)
            }
        }
    }
}
