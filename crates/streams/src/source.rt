ghost use Rattle.std.specs.Prelude.{◌≡◌, ◌≤◌, ◌+◌, ℕ, List, Bool, Option, None, Some, true, length, take, IfOk, OnOk, OnErr, MatchResult};
ghost use Rattle.std.specs.Io.KnownBytes.{ReadConsumes};

use thiserror::Error;

/// A source gave no bytes, for a reason other than its end.
#[derive(Clone, Copy, Debug, Error)]
#[error("the reader failed")]
pub struct TakeFailed;

/// Where bytes come from.
pub trait Source {
    // The bytes that are left, where they are known.
    ghost left: { Self → Option (List ℕ) };

    // What a call of `take` does: the source before, the bytes that it gave unless it failed, and the source
    // after.
    ghost took: { Self → Option (List ℕ) → Self → Type 0 };

    // How many calls of `take` it has counted.
    ghost reads: { Self → ℕ };

    // Whether a call of `take` has failed.
    ghost take_failed: { Self → Bool };

    /// Fills the beginning of the room with some bytes, and returns how many. It returns 0 only where there is no
    /// room, or no byte remains. The count may leave out a call that fails.
    fn take(&mut self, room: &mut [u8]) -> Result<usize, TakeFailed>
        ensures count { IfOk result (λ n. n ≤ length room.new) }
        ensures bytes { ReadConsumes (left self.old) (left self.new) result room.new }
        ensures took { MatchResult result (λ n. took self.old (Some (take n room.new)) self.new) (λ _. took self.old None self.new) }
        ensures counted { OnOk result (reads self.new ≡ reads self.old + 1) }
        ensures least { OnErr result (reads self.old ≤ reads self.new) }
        ensures most { OnErr result (reads self.new ≤ reads self.old + 1) }
        ensures flag { MatchResult result (λ _. take_failed self.new ≡ take_failed self.old) (λ _. take_failed self.new ≡ true) };
}
