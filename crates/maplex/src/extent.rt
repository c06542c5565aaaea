ghost use Rattle.std.specs.Prelude.{◌≡◌, ◌+◌, ◌<◌, ◌≤◌, ◌==◌, length, position, IfOk, IfSome};
ghost use Rattle.std.specs.List.{position_or_len};
ghost use Rattle.maplex.specs.Byte.{ends_word};
ghost use Rattle.maplex.specs.Logic.{logic_size};
ghost use Rattle.maplex.specs.Token.{border_len, token_len, shape_of, closed_extent, extent_of};

use crate::byte::{ends_word, is_closing, is_quote};
use crate::fault::LexKind;
use crate::logic::logic_size;
use crate::token::Shape;

/// How far a token goes.
#[derive(Clone, Copy)]
pub struct Extent {
    /// The shape of the token.
    pub shape: Shape,
    /// How many bytes its text has.
    pub size: usize,
}

impl Extent {
    /// How many bytes are on each side of the text.
    pub fn border_len(self) -> usize
        ensures { result ≡ border_len self.shape }
    {
        match self.shape {
            Shape::Word | Shape::Logic => 0,
            Shape::Text | Shape::List => 1,
        }
    }
}

// The shape of the token that begins with the byte. No token begins with a closing bracket.
fn shape_of(byte: u8) -> Option<Shape>
    ensures { result ≡ shape_of byte }
{
    if is_quote(byte) {
        Some(Shape::Text)
    } else if byte == b'(' {
        Some(Shape::Logic)
    } else if byte == b'{' {
        Some(Shape::List)
    } else if is_closing(byte) {
        None
    } else {
        Some(Shape::Word)
    }
}

// How many bytes come before the end of a bare word.
fn word_len(bytes: &[u8]) -> usize
    ensures count { result ≡ position_or_len ends_word bytes.now }
    ensures within { result ≤ length bytes.now }
{
    bytes.iter().take_while(|byte| !ends_word(**byte)).count()
}

// The index at which the byte comes first.
fn index_of(byte: u8, bytes: &[u8]) -> Option<usize>
    ensures index { result ≡ position (λ c. c == byte) bytes.now }
    ensures within { IfSome result (λ at. at < length bytes.now) }
{
    bytes.iter().position(|other| *other == byte)
}

// The extent of a token of the shape whose closing byte comes after a text of that size, if it does.
fn closed_extent(shape: Shape, size: Option<usize>) -> Result<Extent, LexKind>
    ensures { result ≡ closed_extent shape size }
{
    match size {
        Some(size) => Ok(Extent { shape, size }),
        None => Err(LexKind::OpenString),
    }
}

/// The extent of the token that begins with the first byte, before the others.
pub fn extent_of(first: u8, others: &[u8]) -> Result<Extent, LexKind>
    ensures extent { result ≡ extent_of first others.now }
    ensures within { IfOk result (λ e. token_len e ≤ 1 + length others.now) }
{
    match shape_of(first) {
        Some(Shape::Word) => Ok(Extent {
            shape: Shape::Word,
            size: 1 + word_len(others),
        }),
        Some(Shape::Text) => closed_extent(Shape::Text, index_of(first, others)),
        Some(Shape::Logic) => closed_extent(Shape::Logic, logic_size(others)),
        Some(Shape::List) => closed_extent(Shape::List, index_of(b'}', others)),
        None => Err(LexKind::BadByte),
    }
}
