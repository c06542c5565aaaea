//! Laws of the definitions. A law is a function without arguments whose contract states it.

ghost use Rattle.std.specs.Prelude.{ℕ, List};
ghost use Rattle.sharing.specs.Law.{AnswersAreRight, Grows, KeepsPromises};
ghost use Rattle.batches.specs.Batch.{State, accepted};
ghost use Rattle.mapmachine.specs.Machine.{IsAnswer};

/// Whatever happens, and from whatever state the map is opened in, each answer is one of the map machine after
/// published batches. These begin with all batches that its reader was shown or learned of; the known batches begin the
/// published ones, and stay known.
pub fn shared()
    ensures answers { (start : State) → AnswersAreRight start accepted IsAnswer }
    ensures keeps { (start : State) → KeepsPromises (List ℕ) start accepted }
    ensures grows { (start : State) → Grows (List ℕ) start accepted }
{}
