ghost use Rattle.std.specs.Prelude.{◌≡◌};
ghost use Rattle.csvpoints.specs.Fault.{number_of};

use std::alloc::AllocError;
use thiserror::Error;

/// What is wrong with a record.
#[derive(Clone, Copy, Debug, Error)]
pub enum CsvKind {
    /// The text has no record.
    #[error("no header")]
    NoHeader,
    /// The header names no column of the x coordinates, or none of the y coordinates.
    #[error("no column of the coordinates")]
    NoColumn,
    /// A coordinate can't be read, or is beyond 1,000 degrees.
    #[error("a coordinate that can't be read, or beyond 1,000 degrees")]
    BadNumber,
    /// The record has another count of fields than the header.
    #[error("another count of fields than the header has")]
    Uneven,
    /// A field is not UTF-8.
    #[error("a field that is not UTF-8")]
    NotText,
    /// The header has too many columns, or the row is one more than the table may have.
    #[error("more columns or rows than a table may have")]
    Limit,
}

impl CsvKind {
    /// The number by which operators and scripts know the kind.
    pub const fn number(self) -> u8
        ensures { result ≡ number_of self }
    {
        match self {
            CsvKind::NoHeader => 1,
            CsvKind::NoColumn => 2,
            CsvKind::BadNumber => 3,
            CsvKind::Uneven => 4,
            CsvKind::NotText => 5,
            CsvKind::Limit => 6,
        }
    }
}

/// Why a text is no table: the first fault in the order of records.
#[derive(Clone, Copy, Debug, Error)]
#[error("row {row}: {kind}")]
pub struct CsvFault {
    /// The number of the record. The header is 1.
    pub row: u64,
    /// What is wrong there.
    pub kind: CsvKind,
}

/// Why no table was read.
#[derive(Clone, Copy, Debug, Error)]
pub enum CsvError {
    /// The text is no table.
    #[error("{0}")]
    Fault(CsvFault),
    /// Memory was refused.
    #[error("out of memory")]
    NoMemory,
}

impl From<CsvFault> for CsvError {
    ghost use Rattle.csvpoints.specs.declared.fault.CsvError.TheVariants.{Fault};

    ghost from_gives = { λ fault error. error ≡ Fault fault };

    fn from(fault: CsvFault) -> CsvError {
        CsvError::Fault(fault)
    }
}

impl From<AllocError> for CsvError {
    ghost use Rattle.csvpoints.specs.declared.fault.CsvError.TheVariants.{NoMemory};

    ghost from_gives = { λ _ error. error ≡ NoMemory };

    fn from(_error: AllocError) -> CsvError {
        CsvError::NoMemory
    }
}
