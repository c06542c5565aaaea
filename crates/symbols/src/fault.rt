ghost use Rattle.std.specs.Prelude.{◌≡◌};

use std::alloc::AllocError;
use thiserror::Error;

/// Why bytes give no pixmap. Of several faults the first of these is reported: `Magic`, `Header`, `Limit`,
/// `Short`.
#[derive(Clone, Copy, Debug, Error)]
pub enum PixFault {
    /// The bytes don't begin with P6.
    #[error("the bytes don't begin with P6")]
    Magic,
    /// After P6 white space is missing, a number is missing or of the wrong value, or the white space after
    /// the last one is missing.
    #[error("a header that can't be read, or without pixels")]
    Header,
    /// There are fewer than three bytes for each pixel.
    #[error("fewer bytes than the pixels need")]
    Short,
    /// A side is longer than `MAX_SYMBOL_SIDE`.
    #[error("more than 256 pixels on a side")]
    Limit,
    /// Memory was refused.
    #[error("out of memory")]
    NoMemory,
}

impl From<AllocError> for PixFault {
    ghost use Rattle.symbols.specs.declared.fault.PixFault.TheVariants.{NoMemory};

    ghost from_gives = { λ _ error. error ≡ NoMemory };

    fn from(_error: AllocError) -> PixFault {
        PixFault::NoMemory
    }
}
