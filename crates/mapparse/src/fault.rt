ghost use Rattle.std.specs.Prelude.{◌≡◌};
ghost use Rattle.mapparse.specs.Fault.{kind_of, fault_in};

use bdffont::FontFault;
use csvpoints::CsvFault;
use mapwords::{Fault, Keyword, ParseKind};
use symbols::PixFault;

/// Why a file isn't what a mapfile uses it as.
#[derive(Clone, Copy)]
pub enum FileCause {
    /// It is missing.
    Missing,
    /// It is no pixmap, as a symbol needs it.
    NoPixmap(PixFault),
    /// It is no table of points, as a layer needs it.
    NoTable(CsvFault),
    /// It is no font, as the labels need it.
    NoFont(FontFault),
}

impl FileCause {
    /// The kind of the fault.
    pub fn kind(self) -> ParseKind
        ensures { result ≡ kind_of self }
    {
        match self {
            FileCause::Missing => ParseKind::MissingFile,
            FileCause::NoPixmap(_) | FileCause::NoTable(_) | FileCause::NoFont(_) => {
                ParseKind::BadFile
            }
        }
    }
}

/// The fault of a file, with its cause.
#[derive(Clone, Copy)]
pub struct FileFault {
    /// Which of the files it is that the mapfile uses, in the order of their first use, counted from 0.
    pub number: usize,
    /// The line of the file's first use, counted from 1.
    pub line: u64,
    /// The keyword of the use that the file doesn't fit: IMAGE, DATA or CONFIG. A missing file has that of its first use.
    pub keyword: Keyword,
    /// Why it isn't what it is used as.
    pub cause: FileCause,
}

impl FileFault {
    /// The fault of the mapfile.
    pub fn fault(self) -> Fault
        ensures { result ≡ fault_in self }
    {
        Fault {
            line: self.line,
            kind: self.cause.kind(),
        }
    }
}
