ghost use Rattle.std.specs.Prelude.{◌≡◌};

use crate::fault::WmsFault;
use std::alloc::AllocError;
use thiserror::Error;

/// Why a query makes no request.
#[derive(Clone, Copy, Debug, Error)]
pub enum QueryError {
    /// A parameter is at fault.
    #[error("{0}")]
    Fault(WmsFault),
    /// Memory was refused.
    #[error("out of memory")]
    NoMemory,
}

impl From<AllocError> for QueryError {
    ghost use Rattle.wmsquery.specs.declared.error.QueryError.TheVariants.{NoMemory};

    ghost from_gives = { λ _ e. e ≡ NoMemory };

    fn from(_error: AllocError) -> QueryError {
        QueryError::NoMemory
    }
}

impl From<WmsFault> for QueryError {
    ghost use Rattle.wmsquery.specs.declared.error.QueryError.TheVariants.{Fault};

    ghost from_gives = { λ f e. e ≡ Fault f };

    fn from(fault: WmsFault) -> QueryError {
        QueryError::Fault(fault)
    }
}
