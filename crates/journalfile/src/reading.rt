//! Reading the batches of a journal that is served.

ghost use Rattle.std.specs.Prelude.{◌≡◌, ◌+◌, ◌++◌, ◌∷◌, [], List, ℕ, IfOk, OnOk};
ghost use Rattle.sha2.specs.Sha256.{sha256};
ghost use Rattle.compaction.specs.Compacted.{commands_of, with_batch};
ghost use Rattle.compaction.specs.LastChanges.{AreLast};
ghost use Rattle.journal.specs.Name.{name_bytes};
ghost use Rattle.journal.specs.Record.{journal_of};
ghost use Rattle.journalfile.specs.Compacting.{HasLeft, HasRead};
ghost use Rattle.journalfile.specs.Frames.{IsAhead, IsRead};

use crate::failure::LogFailure;
use crate::frames::{Frames, ReadError};
use crate::header::read_header;
use crate::log::Log;
use crate::records::next_record;
use crate::recovery::RecoverFault;
use compaction::LastChanges;
use journal::JournalName;
use keepers::LogCause;
use std::alloc::{AllocError, Global};

/// A journal isn't compacted: memory was refused, a log failed, or a record isn't read that was written.
#[derive(Clone, Copy)]
pub struct NotCompacted {
    /// Why it isn't.
    pub cause: LogCause,
}

impl NotCompacted {
    // It isn't compacted, since a record isn't read that was written.
    pub(crate) fn unread() -> Self
        ensures { result ≡ record { cause = LogCause.Unread } }
    {
        NotCompacted {
            cause: LogCause::Unread,
        }
    }

    // It isn't compacted, since a call of a log failed.
    pub(crate) fn failed<F: Drop + LogFailure>(failure: F) -> Self
        ensures { result ≡ record { cause = F.cause failure } }
    {
        NotCompacted {
            cause: failure.cause(),
        }
    }
}

impl From<AllocError> for NotCompacted {
    fn from(_: AllocError) -> Self {
        NotCompacted {
            cause: LogCause::NoMemory,
        }
    }
}

impl<F: Drop + LogFailure> From<ReadError<F>> for NotCompacted {
    fn from(error: ReadError<F>) -> Self {
        match error {
            ReadError::NoMemory => NotCompacted::from(AllocError),
            ReadError::Failed(failure) => NotCompacted::failed(failure),
        }
    }
}

impl<F: Drop + LogFailure> From<RecoverFault<F>> for NotCompacted {
    fn from(fault: RecoverFault<F>) -> Self {
        match fault {
            RecoverFault::NoMemory => NotCompacted::from(AllocError),
            RecoverFault::Failed(failure) => NotCompacted::failed(failure),
            RecoverFault::Header(_) | RecoverFault::Damaged(_) | RecoverFault::Refused(_) => {
                NotCompacted::unread()
            }
        }
    }
}

/// The records of a journal: their allocator, the name of the journal, and how many there are.
#[derive(Clone, Copy)]
pub(crate) struct Records {
    pub(crate) alloc: Global,
    pub(crate) name: JournalName,
    pub(crate) count: u64,
}

/// A journal that is read from its first record on.
#[derive(Drop)]
pub(crate) struct Reader {
    // Its bytes that follow.
    pub(crate) frames: Frames,
    // Its name.
    pub(crate) name: JournalName,
    // How many records were read.
    pub(crate) number: u64,
    // How many commands are in those of which `next_left` said what is left.
    pub(crate) commands: u64,
}

impl Reader {
    /// Reads the header of a journal.
    pub(crate) fn start<L: Log>(records: Records, log: &mut L) -> Result<Self, NotCompacted>
        ensures read { L.reliable → IfOk result (λ reader. (all : List (List ℕ)) → L.content log.old ≡ journal_of sha256 (name_bytes records.name) all
            → HasRead (L.content log.old) all [] all reader) }
        ensures ahead { L.reliable → IfOk result (λ reader. IsAhead (L.content log.old) reader.frames) }
        ensures name { IfOk result (λ reader. reader.name ≡ records.name) }
        ensures number { IfOk result (λ reader. reader.number ≡ 0) }
        ensures commands { IfOk result (λ reader. reader.commands ≡ 0) }
        ensures log { L.reliable → IsRead L.content L.may_leave L.moment L.left_since log.old log.new }
    {
        let mut frames = Frames::new(records.alloc);
        let name = read_header(&mut frames, log, &records.name.fingerprint)?;
        if !records.name.is_same(&name) {
            return Err(NotCompacted::unread());
        }
        Ok(Reader {
            frames,
            name: records.name,
            number: 0,
            commands: 0,
        })
    }

    /// The batch of the next record.
    pub(crate) fn next<L: Log>(&mut self, log: &mut L) -> Result<Vec<u8>, NotCompacted>
        requires ahead { L.reliable → IsAhead (L.content log.old) self.old.frames }
        ensures ahead { L.reliable → OnOk result (IsAhead (L.content log.old) self.new.frames) }
        ensures read { L.reliable → IfOk result (λ batch. (all done left : List (List ℕ)) → HasRead (L.content log.old) all done left self.old
            → (rest : List (List ℕ)) × (left ≡ batch.items ∷ rest) × HasRead (L.content log.old) all (done ++ batch.items ∷ []) rest self.new) }
        ensures name { self.new.name ≡ self.old.name }
        ensures number { OnOk result (self.new.number ≡ self.old.number + 1) }
        ensures commands { self.new.commands ≡ self.old.commands }
        ensures log { L.reliable → IsRead L.content L.may_leave L.moment L.left_since log.old log.new }
    {
        if self.number == u64::MAX {
            return Err(NotCompacted::unread());
        }
        let number = self.number + 1;
        let Some(batch) = next_record(&mut self.frames, log, &self.name, number)? else {
            return Err(NotCompacted::unread());
        };
        self.number = number;
        Ok(batch)
    }

    /// What is left of the next batch, by the last changes of all batches.
    pub(crate) fn next_left<L: Log>(
        &mut self,
        log: &mut L,
        changes: &LastChanges,
    ) -> Result<Vec<u8>, NotCompacted>
        requires ahead { L.reliable → IsAhead (L.content log.old) self.old.frames }
        ensures ahead { L.reliable → OnOk result (IsAhead (L.content log.old) self.new.frames) }
        ensures left { L.reliable → IfOk result (λ left. (all written : List (List ℕ)) → AreLast changes.now (commands_of all)
            → HasLeft (L.content log.old) all written self.old → HasLeft (L.content log.old) all (written ++ with_batch left.items []) self.new) }
        ensures name { self.new.name ≡ self.old.name }
        ensures number { OnOk result (self.new.number ≡ self.old.number + 1) }
        ensures log { L.reliable → IsRead L.content L.may_leave L.moment L.left_since log.old log.new }
    {
        let batch = self.next(log)?;
        let mut left = Vec::new(self.frames.alloc());
        self.commands = changes.add_left(self.commands, batch.as_slice(), &mut left)?;
        Ok(left)
    }
}
