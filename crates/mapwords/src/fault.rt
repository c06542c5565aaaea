ghost use Rattle.std.specs.Prelude.{◌≡◌};
ghost use Rattle.mapwords.specs.Fault.{number_of, fault_of, missing};

use maplex::{LexKind, Tail, Token};
use std::alloc::AllocError;
use thiserror::Error;

/// What is wrong with a mapfile.
#[derive(Clone, Copy, Debug, Error)]
pub enum ParseKind {
    /// The source can't be cut into further tokens there.
    #[error("{0}")]
    Lex(LexKind),
    /// A token that is no keyword of its block, or that comes after the last END.
    #[error("a word that may not stand here")]
    UnknownWord,
    /// A token that is no value of its keyword.
    #[error("a value that its keyword does not take")]
    WrongValue,
    /// The source ends before the END of MAP. The line is the last of the source.
    #[error("the mapfile ends where an END is missing")]
    MissingEnd,
    /// An END before a required value, keyword, block or vertex.
    #[error("an END before a required keyword or value")]
    MissingValue,
    /// A block, a vertex, an item or a name of a font more than a map may have.
    #[error("more symbols, layers, classes, styles, labels, features, vertices, items or names of fonts than a map may have")]
    Limit,
    /// A file that is missing. The line is that of its first use.
    #[error("a file that can't be read")]
    MissingFile,
    /// A layer whose name an earlier layer has. The line is that of the name.
    #[error("an earlier layer has the same name")]
    DuplicateName,
    /// The value of EXPRESSION is no expression.
    #[error("no expression")]
    BadExpression,
    /// A file that is no file of its kind. The line is that of its first use.
    #[error("a file that is none of its kind")]
    BadFile,
}

impl ParseKind {
    /// The number by which operators and scripts know the kind.
    pub const fn number(self) -> u8
        ensures { result ≡ number_of self }
    {
        match self {
            ParseKind::Lex(_) => 1,
            ParseKind::UnknownWord => 2,
            ParseKind::WrongValue => 3,
            ParseKind::MissingEnd => 4,
            ParseKind::MissingValue => 5,
            ParseKind::Limit => 6,
            ParseKind::MissingFile => 7,
            ParseKind::DuplicateName => 8,
            ParseKind::BadExpression => 9,
            ParseKind::BadFile => 10,
        }
    }
}

/// Why a source gives no map.
#[derive(Clone, Copy, Debug, Error)]
pub enum ParseFault {
    /// The first fault in the order of tokens.
    #[error("line {line}: {kind}")]
    At {
        /// Its line, counted from 1.
        line: u64,
        /// What is wrong there.
        kind: ParseKind,
    },
    /// Memory was refused.
    #[error("out of memory")]
    NoMemory,
}

/// A fault of a source. What takes no memory fails with it alone.
#[derive(Clone, Copy)]
pub struct Fault {
    /// Its line, counted from 1.
    pub line: u64,
    /// What is wrong there.
    pub kind: ParseKind,
}

impl From<Fault> for ParseFault {
    ghost use Rattle.std.specs.Prelude.{◌≡◌};
    ghost use Rattle.mapwords.specs.declared.fault.ParseFault.TheVariants.{At};

    ghost from_gives = { λ fault error. error ≡ At fault.line fault.kind };

    fn from(fault: Fault) -> ParseFault {
        ParseFault::At {
            line: fault.line,
            kind: fault.kind,
        }
    }
}

impl From<AllocError> for ParseFault {
    ghost use Rattle.std.specs.Prelude.{◌≡◌};
    ghost use Rattle.mapwords.specs.declared.fault.ParseFault.TheVariants.{NoMemory};

    ghost from_gives = { λ _ error. error ≡ NoMemory };

    fn from(_error: AllocError) -> ParseFault {
        ParseFault::NoMemory
    }
}

/// The fault of a kind at a token.
pub fn fault_of(kind: ParseKind, token: &Token) -> Fault
    ensures { result ≡ fault_of kind token.now }
{
    Fault {
        line: token.line,
        kind,
    }
}

/// The fault where a further token is needed, by what comes after the last one.
pub fn missing(tail: Tail) -> Fault
    ensures { result ≡ missing tail }
{
    match tail {
        Tail::Ends(line) => Fault {
            line,
            kind: ParseKind::MissingEnd,
        },
        Tail::Breaks(fault) => Fault {
            line: fault.line,
            kind: ParseKind::Lex(fault.kind),
        },
    }
}
