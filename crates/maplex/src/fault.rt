ghost use Rattle.std.specs.Prelude.{◌≡◌};
ghost use Rattle.maplex.specs.Lexed.{line_of};

use thiserror::Error;

/// Why a source has no further token.
#[derive(Clone, Copy, Debug, Error)]
pub enum LexKind {
    /// The source ends inside a quoted text, a logical expression or a list. The line is that on which
    /// it begins.
    #[error("the quoted text, expression or list that begins here is not closed")]
    OpenString,
    /// A bracket that closes where none is open, or in a token a control byte or a byte that is not
    /// UTF-8. The line is that of the byte.
    #[error("a bracket that closes nothing, a control character, or a byte that is not UTF-8")]
    BadByte,
    /// A token whose text has more than `TOKEN_LIMIT` bytes. The line is that on which it begins.
    #[error("the token that begins here is longer than 65,536 bytes")]
    TooLong,
}

/// The first fault of a source.
#[derive(Clone, Copy, Debug, Error)]
#[error("line {line}: {kind}")]
pub struct LexFault {
    /// Its line, counted from 1.
    pub line: u64,
    /// What is wrong there.
    pub kind: LexKind,
}

/// What comes after the last token of a source.
#[derive(Clone, Copy)]
pub enum Tail {
    /// The end of the source, with its line: 1 more than the LF bytes of the source.
    Ends(u64),
    /// The first fault.
    Breaks(LexFault),
}

impl Tail {
    /// The line of the end or of the fault, counted from 1.
    pub fn line(self) -> u64
        ensures { result ≡ line_of self }
    {
        match self {
            Tail::Ends(line) => line,
            Tail::Breaks(fault) => fault.line,
        }
    }
}
