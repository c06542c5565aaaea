//! The name of a journal.

ghost use Rattle.std.specs.Prelude.{◌≡◌, ◌↔◌, ◌++◌, ℕ, List, IsTrue, OnOk};
ghost use Rattle.sha2.specs.Hashers.{Holds256};
ghost use Rattle.sha2.specs.Sha256.{sha256};
ghost use Rattle.journal.specs.Name.{IsBounded, name_bytes, skipped_of, written_of};

use crate::record::sequence;
use sha2::{Digest, Sha256};
use std::alloc::AllocError;

/// The last compaction of a journal.
#[derive(Clone, Copy, Debug, PartialEq, Eq)]
pub struct Compaction {
    /// How many batches fewer the journal has than those that it stands for, by this compaction and those before it.
    pub skipped: u64,
    /// How many batches were written with the header, before the file took the place of the journal. No append can have torn these.
    pub written: u64,
}

/// The name of a journal, which stands in its header and begins what each record digests.
#[derive(Clone, Copy, Debug, PartialEq, Eq)]
pub struct JournalName {
    /// The fingerprint of the map.
    pub fingerprint: [u8; 32],
    /// Its last compaction: none of a journal that was never compacted.
    pub compaction: Option<Compaction>,
}

impl JournalName {
    /// How many batches fewer the journal has than those that it stands for: 0 of one that was never compacted.
    pub fn skipped(&self) -> u64
        ensures { result ≡ skipped_of self.now.compaction }
    {
        match self.compaction {
            Some(compaction) => compaction.skipped,
            None => 0,
        }
    }

    /// How many of its batches were written with its header: 0 of one that was never compacted.
    pub fn written(&self) -> u64
        ensures { result ≡ written_of self.now.compaction }
    {
        match self.compaction {
            Some(compaction) => compaction.written,
            None => 0,
        }
    }

    /// Whether another name is equal.
    pub fn is_same(&self, other: &JournalName) -> bool
        ensures same { IsTrue result ↔ (self.now ≡ other.now) }
        ensures bounded { IsBounded self.now.compaction }
    {
        // Reading both numbers shows that they have 8 bytes.
        let _numbers = (self.skipped(), self.written());
        self == other
    }
}

// Adds a name to a message that is digested.
pub(crate) fn update_with_name(hasher: &mut Sha256, name: &JournalName)
    ensures { (m : List ℕ) → Holds256 hasher.old m → Holds256 hasher.new (m ++ name_bytes name.now) }
{
    if let Some(compaction) = name.compaction {
        hasher.update(sequence(compaction.skipped).as_slice());
        hasher.update(sequence(compaction.written).as_slice());
    }
    hasher.update(name.fingerprint.as_slice());
}

// Adds the bytes of a name. The one error is that memory was refused.
pub(crate) fn push_name(out: &mut Vec<u8>, name: &JournalName) -> Result<(), AllocError>
    ensures { OnOk result (out.new.items ≡ out.old.items ++ name_bytes name.now) }
{
    if let Some(compaction) = name.compaction {
        out.extend_from_slice(&sequence(compaction.skipped))?;
        out.extend_from_slice(&sequence(compaction.written))?;
    }
    out.extend_from_slice(&name.fingerprint)
}

// The digest of the bytes of a name.
pub(crate) fn digest_of_bytes(name: &[u8]) -> [u8; 32]
    ensures { result ≡ sha256 name.now }
{
    let mut hasher = Sha256::new();
    hasher.update(name);
    hasher.finalize()
}

// The digest of a name.
pub(crate) fn digest_of_name(name: &JournalName) -> [u8; 32]
    ensures { result ≡ sha256 (name_bytes name.now) }
{
    let mut hasher = Sha256::new();
    update_with_name(&mut hasher, name);
    hasher.finalize()
}
