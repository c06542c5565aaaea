ghost use Rattle.std.specs.Prelude.{◌≡◌};
ghost use Rattle.batches.specs.Fault.{number_of};

use crate::CommandFault;
use csvpoints::CsvFault;
use layers::Refusal;
use std::alloc::AllocError;
use thiserror::Error;

/// The most bytes of a batch.
pub const MAX_BATCH: usize = 4_194_304;

/// What is wrong with a command, or with a batch.
#[derive(Clone, Copy, Debug, Error)]
pub enum BatchKind {
    /// The command can't be read.
    #[error("{0}")]
    Unread(CommandFault),
    /// The change is refused.
    #[error("{0}")]
    Refused(Refusal),
    /// The bytes of the command are no table.
    #[error("{0}")]
    Csv(CsvFault),
    /// The batch has more than `MAX_BATCH` bytes.
    #[error("too many bytes for a batch")]
    TooLong,
    /// No further batch can be counted.
    #[error("no further batch can be counted")]
    SequenceEnd,
}

impl BatchKind {
    /// The number by which operators and scripts know the kind.
    pub const fn number(self) -> u8
        ensures { result ≡ number_of self }
    {
        match self {
            BatchKind::Unread(CommandFault::UnknownWord) => 1,
            BatchKind::Refused(Refusal::UnknownLayer) => 2,
            BatchKind::Refused(Refusal::NotPoints) => 3,
            BatchKind::Csv(_) => 4,
            BatchKind::Refused(Refusal::Full) => 5,
            BatchKind::Unread(CommandFault::Short) => 6,
            BatchKind::TooLong => 7,
            BatchKind::SequenceEnd => 8,
        }
    }
}

/// Why a batch is refused: its first fault.
#[derive(Clone, Copy, Debug, Error)]
#[error("command {index}: {kind}")]
pub struct BatchFault {
    /// The number of the command, from 1, or 0 where the fault is not one of a command.
    pub index: u64,
    /// What is wrong.
    pub kind: BatchKind,
}

/// Why a command changed nothing.
#[derive(Clone, Copy, Debug, Error)]
pub enum CommandError {
    /// What is wrong with the command.
    #[error("{0}")]
    Fault(BatchKind),
    /// Memory was refused.
    #[error("out of memory")]
    NoMemory,
}

/// Why a batch changed nothing.
#[derive(Clone, Copy, Debug, Error)]
pub enum BatchError {
    /// The first fault of the batch.
    #[error("{0}")]
    Fault(BatchFault),
    /// Memory was refused.
    #[error("out of memory")]
    NoMemory,
}

impl From<AllocError> for BatchError {
    ghost use Rattle.std.specs.Prelude.{◌≡◌};
    ghost use Rattle.batches.specs.declared.fault.BatchError.TheVariants.{NoMemory};

    ghost from_gives = { λ _ error. error ≡ NoMemory };

    fn from(_error: AllocError) -> BatchError {
        BatchError::NoMemory
    }
}
