//! Quoted texts whose closing quote may be missing.

use maplex::{Shape, Token};
use std::alloc::{AllocError, Global};

// The lines on which a quoted text begins and ends.
#[derive(Clone, Copy)]
struct Lines {
    first: u64,
    last: u64,
}

/// What was read of quoted texts that go over their line's end.
#[derive(Clone, Copy)]
pub struct QuotedTexts {
    // The first of them behind which another token stands on its last line, as behind a quote that is missing.
    followed: Option<Lines>,
    // The last token, where it is such a text.
    last: Option<Lines>,
}

// The lines of a token, where it is a quoted text that goes over its line's end.
fn lines_of(token: &Token) -> Option<Lines> {
    let ends = token.text.bytes().filter(|byte| *byte == b'\n').count();
    match token.shape {
        Shape::Text if ends > 0 => Some(Lines {
            first: token.line,
            last: token.line.saturating_add(ends as u64),
        }),
        _ => None,
    }
}

impl QuotedTexts {
    /// Nothing was read.
    pub const NONE: QuotedTexts = QuotedTexts {
        followed: None,
        last: None,
    };

    /// The same after the next token.
    pub fn after(self, token: &Token) -> Self {
        let followed = match self.last {
            Some(lines) if lines.last == token.line => self.followed.or(self.last),
            _ => self.followed,
        };
        QuotedTexts {
            followed,
            last: lines_of(token),
        }
    }

    // The line on which the text begins that a message on the last token speaks of.
    fn line(self) -> Option<u64> {
        self.followed.or(self.last).map(|lines| lines.first)
    }

    /// A message on the last token, and where the text begins that goes over its line's end, if there is one.
    pub fn message(self, alloc: Global, message: String) -> Result<String, AllocError> {
        match self.line() {
            Some(line) => format!(in alloc;
                "{message}: the quoted text that begins in line {line} goes over its line's end"
            ),
            None => Ok(message),
        }
    }
}
