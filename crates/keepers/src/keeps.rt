//! Keepers of accepted batches.

ghost use Rattle.std.specs.Prelude.{◌≡◌, ◌++◌, ℕ, List, IsErrOf, OnOk, Err};
ghost use Rattle.journal.specs.Texts.{texts_of};
ghost use Rattle.keepers.specs.Crashes.{LeavesOnly, StandsWithFirst};
ghost use Rattle.keepers.specs.Keeping.{keeps_of, left_since_of, moment_of, option_stays, stands_of};
ghost use Rattle.keepers.specs.declared.cause.LogCause.{LogCause};

use crate::cause::LogCause;

/// Why batches aren't kept.
#[derive(Clone, Copy, Debug, PartialEq, Eq)]
pub enum KeepFault {
    /// Memory was refused, and nothing was done.
    NoMemory,
    /// It failed, and this is the cause. How many of the batches are kept is unknown, and no further one may be.
    Failed(LogCause),
}

/// A keeper of accepted batches, before they are published: a journal, or nothing where they needn't outlive the
/// process.
pub trait Keeps {
    /// What a crash leaves is known. Of a file of the system it isn't.
    ghost reliable: { Type 0 };

    /// These are the batches that it keeps.
    ghost keeps: { Self → List (List ℕ) → Type 0 };

    /// The moment, as a number that doesn't fall.
    ghost moment: { Self → ℕ };

    /// The files that a crash at some moment from that one on might have left.
    ghost left_since: { Self → ℕ → List ℕ → Type 0 };

    /// A file stands for these batches.
    ghost stands: { Self → List ℕ → List (List ℕ) → Type 0 };

    /// A call may fail for this cause.
    ghost fails: { LogCause → Type 0 };

    /// Keeps more batches, in their order, by one sync. A crash at any moment leaves the batches from before, and after them the first of these, or
    /// none.
    fn keep(&mut self, batches: &[Vec<u8>]) -> Result<(), KeepFault>
        requires ready { (kept : List (List ℕ)) × keeps self.old kept }
        ensures kept { OnOk result ((kept : List (List ℕ)) → keeps self.old kept → keeps self.new (kept ++ texts_of batches.now)) }
        ensures any_moment { reliable → (kept : List (List ℕ)) → keeps self.old kept
            → LeavesOnly moment left_since self.old self.new (StandsWithFirst stands self.old kept (texts_of batches.now)) }
        ensures same_file { (file : List ℕ) (batches : List (List ℕ)) → stands self.new file batches → stands self.old file batches }
        ensures no_memory { result ≡ Err KeepFault.NoMemory → self.new ≡ self.old }
        ensures failed { (cause : LogCause) → IsErrOf result (KeepFault.Failed cause) → fails cause };

    /// Where nothing is done, a crash leaves the batches.
    ghost stays: { reliable → (keeper : Self) (batches : List (List ℕ)) (file : List ℕ)
        → keeps keeper batches
        → left_since keeper (moment keeper) file
        → stands keeper file batches };
}

/// A keeper that keeps nothing: batches end with the process.
#[derive(Clone, Copy)]
pub struct Nowhere;

impl Keeps for Nowhere {
    ghost reliable = { Unit {0} };

    ghost keeps = { λ _ _. Unit {0} };

    ghost moment = { λ _. 0 };

    ghost left_since = { λ _ _ _. ⊥ };

    ghost stands = { λ _ _ _. Unit {0} };

    ghost fails = { λ _. ⊥ };

    ghost stays = { λ _ _ _ _ _ _. tt };

    fn keep(&mut self, _batches: &[Vec<u8>]) -> Result<(), KeepFault> {
        Ok(())
    }
}

/// A keeper, if there is one; without it batches end with the process.
impl<K: Keeps> Keeps for Option<K> {
    ghost reliable = { K.reliable };

    ghost keeps = { keeps_of K.keeps };

    ghost moment = { moment_of K.moment };

    ghost left_since = { left_since_of K.left_since };

    ghost stands = { stands_of K.stands };

    ghost fails = { K.fails };

    ghost stays = { λ reliable. option_stays K.keeps K.moment K.left_since K.stands (K.stays reliable) };

    fn keep(&mut self, batches: &[Vec<u8>]) -> Result<(), KeepFault> {
        match self {
            Some(keeper) => keeper.keep(batches),
            None => Ok(()),
        }
    }
}
