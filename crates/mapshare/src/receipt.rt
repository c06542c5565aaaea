ghost use Rattle.std.specs.Prelude.{◌≡◌, ◌+◌, length};

use crate::rule::Sharing;
use history::Prefix;
use std::marker::Model;

/// A receipt of all batches that were published when it was made. Contracts see it as these batches.
#[derive(Drop)]
pub struct Receipt<S: Sharing> {
    prefix: Prefix<S>,
    sequence: u64,
}

impl<S: Sharing> Model for Receipt<S> {
    ghost use Rattle.std.specs.Prelude.{◌≡◌, ◌+◌, ℕ, List, length};

    ghost Value = { List (List ℕ) };

    ghost view = { λ r. r.prefix };

    ghost invariant = { λ r. r.sequence ≡ S.opening.sequence + length r.prefix };
}

impl<S: Sharing> Receipt<S> {
    // The receipt of a prefix, after which the machine has this sequence.
    pub(crate) fn new(prefix: Prefix<S>, sequence: u64) -> Self
        requires counted { sequence ≡ S.opening.sequence + length prefix }
        ensures { result ≡ prefix }
    {
        Receipt { prefix, sequence }
    }

    // The batches of the receipt.
    pub(crate) fn prefix(&self) -> &Prefix<S>
        ensures { result.now ≡ self.now }
    {
        &self.prefix
    }

    /// The sequence after all of its batches.
    pub fn sequence(&self) -> u64
        ensures { result ≡ S.opening.sequence + length self.now }
    {
        self.sequence
    }
}
