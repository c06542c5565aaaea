//! Failures of logs.

ghost use Rattle.std.specs.Prelude.{◌≡◌};

use keepers::LogCause;

/// A failure of a log.
pub trait LogFailure {
    ghost use Rattle.keepers.specs.declared.cause.LogCause.{LogCause};

    /// Its cause.
    ghost cause: { Self → LogCause };

    /// Its cause.
    fn cause(&self) -> LogCause
        ensures { result ≡ cause self.now };
}

impl LogFailure for LogCause {
    ghost cause = { λ c. c };

    fn cause(&self) -> LogCause {
        *self
    }
}
