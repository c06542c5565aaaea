ghost use Rattle.std.specs.Prelude.{◌≡◌};

use std::alloc::AllocError;
use thiserror::Error;

/// Why a text is no expression.
#[derive(Clone, Copy, Debug, Error)]
#[error("no expression from byte {at} on")]
pub struct ExprFault {
    /// The index, from 0, of the byte at which no reading can go on. It is the text's length where the
    /// text ends too early.
    pub at: usize,
}

/// Why no expression was read.
#[derive(Clone, Copy, Debug, Error)]
pub enum ExprError {
    /// The text is no expression.
    #[error("{0}")]
    Fault(ExprFault),
    /// Memory was refused.
    #[error("out of memory")]
    NoMemory,
}

/// What stops reading within a text.
#[derive(Clone, Copy)]
pub enum ReadingError {
    /// No reading goes on where so many bytes remain.
    Fault { left: usize },
    /// Memory was refused.
    NoMemory,
}

impl From<AllocError> for ReadingError {
    ghost use Rattle.expressions.specs.declared.fault.ReadingError.TheVariants.{NoMemory};

    ghost from_gives = { λ _ stop. stop ≡ NoMemory };

    fn from(_error: AllocError) -> ReadingError {
        ReadingError::NoMemory
    }
}
