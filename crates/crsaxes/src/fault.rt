use thiserror::Error;

/// Why a text is no box in a coordinate reference system.
#[derive(Clone, Copy, Debug, Error)]
pub enum AxisFault {
    /// No known system has the name.
    #[error("not a known coordinate reference system")]
    UnknownCrs,
    /// The text doesn't have four parts between commas.
    #[error("not four numbers between commas")]
    NotFour,
    /// A part is no coordinate.
    #[error("a number that can't be read, or beyond 1,000 degrees")]
    NotANumber,
    /// The greatest value of an axis isn't above the least.
    #[error("a box without an area")]
    Empty,
}
