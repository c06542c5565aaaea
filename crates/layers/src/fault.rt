use std::alloc::AllocError;
use thiserror::Error;

/// Why a change is refused.
#[derive(Clone, Copy, Debug, Error)]
pub enum Refusal {
    /// No layer has this name.
    #[error("no layer has this name")]
    UnknownLayer,
    /// The layer's features are not points.
    #[error("the layer's features are not points")]
    NotPoints,
    /// The layer would have more features than a layer may have.
    #[error("the layer would have too many features")]
    Full,
}

/// Why no change was made.
#[derive(Clone, Copy, Debug, Error)]
pub enum ChangeError {
    /// The change is refused.
    #[error("{0}")]
    Refused(Refusal),
    /// Memory was refused.
    #[error("out of memory")]
    NoMemory,
}

impl From<AllocError> for ChangeError {
    ghost use Rattle.std.specs.Prelude.{◌≡◌};
    ghost use Rattle.layers.specs.declared.fault.ChangeError.TheVariants.{NoMemory};

    ghost from_gives = { λ _ error. error ≡ NoMemory };

    fn from(_error: AllocError) -> ChangeError {
        ChangeError::NoMemory
    }
}
