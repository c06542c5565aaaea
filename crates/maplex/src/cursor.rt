ghost use Rattle.std.specs.Prelude.{◌≡◌, ◌+◌, ◌^◌, ◌<◌, ◌≤◌, [], length, false};
ghost use Rattle.maplex.specs.Position.{blank_len, line_ends};

use crate::byte::is_separator;
use std::marker::Model;

/// A position in a source: the bytes that are left, and the line on which they begin.
#[derive(Drop)]
pub struct Cursor<'a> {
    rest: &'a [u8],
    line: u64,
}

impl<'a> Model for Cursor<'a> {
    ghost use Rattle.std.specs.Prelude.{◌+◌, ◌^◌, ◌<◌, length};
    ghost use Rattle.maplex.specs.Position.{Position};

    ghost Value = { Position };

    ghost view = { λ p. record { rest = p.rest.now; line = p.line } };

    // However many lines end in what is left, the line fits 64 bits.
    ghost invariant = { λ p. p.line + length p.rest.now < 2 ^ 64 };
}

// How many bytes of blanks and comments come before the next token.
fn blank_len(bytes: &[u8]) -> usize
    ensures count { result ≡ blank_len false bytes.now }
    ensures within { result ≤ length bytes.now }
{
    let mut in_comment = false;
    for (i, byte) in bytes.iter().enumerate() {
        if in_comment {
            in_comment = *byte != b'\n';
        } else if *byte == b'#' {
            in_comment = true;
        } else if !is_separator(*byte) {
            return i;
        }
    }
    bytes.len()
}

/// How many lines end within the bytes.
pub fn line_ends(bytes: &[u8]) -> usize
    ensures count { result ≡ line_ends bytes.now }
    ensures within { result ≤ length bytes.now }
{
    bytes.iter().filter(|byte| **byte == b'\n').count()
}

impl<'a> Cursor<'a> {
    ghost use Rattle.maplex.specs.Position.{start, further, after_blanks};

    /// The start of a source.
    pub fn new(source: &'a [u8]) -> Self
        ensures { result ≡ start source.now }
    {
        Cursor {
            rest: source,
            line: 1,
        }
    }

    /// A position on the line with nothing left.
    pub fn end(line: u64) -> Self
        ensures { result ≡ record { rest = []; line = line } }
    {
        Cursor { rest: &[], line }
    }

    /// The bytes that are left.
    pub fn rest(&self) -> &'a [u8]
        ensures rest { result.now ≡ self.now.rest }
        ensures room { self.now.line + length self.now.rest < 2 ^ 64 }
    {
        self.rest
    }

    /// The line on which they begin.
    pub fn line(&self) -> u64
        ensures { result ≡ self.now.line }
    {
        self.line
    }

    /// Moves that many bytes further.
    pub fn pass(&mut self, count: usize)
        requires { count ≤ length self.old.rest }
        ensures { self.new ≡ further count self.old }
    {
        let (passed, rest) = self.rest.split_at(count);
        self.line += line_ends(passed) as u64;
        self.rest = rest;
    }

    /// Moves past blanks and comments.
    pub fn skip_blanks(&mut self)
        ensures { self.new ≡ after_blanks self.old }
    {
        let count = blank_len(self.rest);
        self.pass(count);
    }
}
