ghost use Rattle.std.specs.Prelude.{◌≡◌};
ghost use Rattle.bdffont.specs.Fault.{number_of};

use std::alloc::AllocError;
use thiserror::Error;

/// What is wrong with a BDF file.
#[derive(Clone, Copy, Debug, Error)]
pub enum FontKind {
    /// The first line does not begin with STARTFONT. The line is 1, also where the file is empty.
    #[error("the first line does not begin with STARTFONT")]
    Start,
    /// A field is missing, can't be read, or has a wrong position.
    #[error("a field that is missing, out of place or can't be read")]
    Field,
    /// A row of a glyph doesn't have the digits of its width, or the last one is not followed by ENDCHAR.
    #[error("a row of a glyph with the wrong digits, or rows with no ENDCHAR after them")]
    Row,
    /// The glyphs are not as many as CHARS says. The line is that of ENDFONT.
    #[error("another number of glyphs than CHARS says")]
    Count,
    /// A box beyond the greatest side in a side or an offset, or a glyph more than `MAX_GLYPHS`. The greatest side is
    /// `MAX_GLYPH_SIDE`, or what `read_within` is told.
    #[error("a box that is too large, or more than 65,536 glyphs")]
    Limit,
    /// The file ends before ENDFONT. The line is the one after the last.
    #[error("the file ends before ENDFONT")]
    Truncated,
}

impl FontKind {
    /// The number by which operators and scripts know the kind.
    pub const fn number(self) -> u8
        ensures { result ≡ number_of self }
    {
        match self {
            FontKind::Start => 1,
            FontKind::Field => 2,
            FontKind::Row => 3,
            FontKind::Count => 4,
            FontKind::Limit => 5,
            FontKind::Truncated => 6,
        }
    }
}

/// The first fault of a BDF file.
#[derive(Clone, Copy, Debug, Error)]
#[error("line {line}: {kind}")]
pub struct FontFault {
    /// Its line, counted from 1.
    pub line: u64,
    /// What is wrong there.
    pub kind: FontKind,
}

/// Why a file gives no font.
#[derive(Clone, Copy, Debug, Error)]
pub enum FontError {
    /// The first fault in the order of lines.
    #[error("{0}")]
    Fault(FontFault),
    /// Memory was refused.
    #[error("out of memory")]
    NoMemory,
}

impl From<AllocError> for FontError {
    ghost use Rattle.bdffont.specs.declared.fault.FontError.TheVariants.{NoMemory};

    ghost from_gives = { λ _ error. error ≡ NoMemory };

    fn from(_error: AllocError) -> FontError {
        FontError::NoMemory
    }
}
