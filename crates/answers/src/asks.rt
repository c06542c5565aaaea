ghost use Rattle.std.specs.Prelude.{ℕ, List, Result};
ghost use Rattle.answers.specs.declared.answer.Answer.{Answer};
ghost use Rattle.answers.specs.declared.asks.Busy.{Busy};

use crate::Answer;
use thiserror::Error;

/// A query can't be answered now.
#[derive(Clone, Copy, Debug, Error)]
#[error("the server is busy")]
pub struct Busy;

/// An answerer: something that answers queries.
pub trait Asks {
    // The outcomes that a query may have: the answerer before, the query, the outcome, and the answerer
    // after.
    ghost answers: { Self → List ℕ → Result Answer Busy → Self → Type 0 };

    /// The answer to a query.
    fn answer(&mut self, query: &[u8]) -> Result<Answer, Busy>
        ensures { answers self.old query.now result self.new };
}
