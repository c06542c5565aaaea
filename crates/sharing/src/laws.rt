//! Laws of the definitions. A law is a function without arguments whose contract states it.

ghost use Rattle.sharing.specs.Law.{AnswersAreRight, Grows, KeepsPromises};

/// A machine that can be shared: the state that it begins in, which batches it accepts, and its answers.
pub trait Machine {
    /// The state, which batches change.
    type State;

    /// A batch.
    type Batch;

    /// A query.
    type Query;

    /// An answer.
    type Answer;

    ghost use Rattle.std.specs.Prelude.{Option};

    /// The state at the opening.
    ghost start: { Self.State };

    /// The state after a batch, if it is accepted.
    ghost batch: { Self.State → Self.Batch → Option Self.State };

    /// Whether something is an answer to a query in a state.
    ghost answers: { Self.State → Self.Query → Self.Answer → Type 0 };
}

/// Whatever happens, each answer is one in the state after published batches that begin with all that its reader was
/// shown or learned of. Known batches begin the published ones, and stay known.
pub fn shared<M: Machine>()
    ensures answers { AnswersAreRight M.start M.batch M.answers }
    ensures keeps { KeepsPromises M.Query M.start M.batch }
    ensures grows { Grows M.Query M.start M.batch }
{}
