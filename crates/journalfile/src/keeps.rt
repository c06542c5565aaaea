//! Journals as keepers of accepted batches.

ghost use Rattle.std.specs.Prelude.{◌≡◌, ℕ, List};
ghost use Rattle.journal.specs.Name.{name_bytes};
ghost use Rattle.journal.specs.Reading.{StandsFor};
ghost use Rattle.journalfile.specs.Keeping.{FileHas, KeepsShorter, kept_stands, settled_stands};
ghost use Rattle.journalfile.specs.Settled.{GarblesNoRecord, IsSettled};

use crate::checkpoint::CompactedJournal;
use crate::failure::LogFailure;
use crate::log::Log;
use crate::replaceable::Replaceable;
use crate::writing::{Journal, PutFault};
use keepers::{KeepFault, Keeps};

/// A journal keeps batches where its log is reliable.
impl<L: Log> Keeps for Journal<L> {
    ghost reliable = { L.reliable };

    ghost keeps = { λ journal batches. L.reliable → GarblesNoRecord L.garbled (name_bytes journal.name) × IsSettled L.content L.may_leave journal batches };

    ghost moment = { λ journal. L.moment journal.log };

    ghost left_since = { λ journal. L.left_since journal.log };

    ghost stands = { λ journal. StandsFor journal.name };

    ghost fails = { λ cause. (failure : L.Failure) × (L.Failure.cause failure ≡ cause) };

    ghost stays = { λ reliable journal batches file kept left. settled_stands L.content L.may_leave journal batches
        (kept reliable).1 file
        (L.only_now reliable journal.log file left) };

    fn keep(&mut self, batches: &[Vec<u8>]) -> Result<(), KeepFault> {
        if batches.len() as u64 > u64::MAX - self.count {
            return Err(KeepFault::NoMemory);
        }
        match self.put(batches) {
            Ok(()) => Ok(()),
            Err(PutFault::NoMemory) => Err(KeepFault::NoMemory),
            Err(PutFault::Failed(failure)) => Err(KeepFault::Failed(failure.cause())),
        }
    }
}

/// A journal that is compacted where it has grown keeps batches where its log is reliable: once it was, it has fewer that lead to the same state.
impl<L: Replaceable> Keeps for CompactedJournal<L> {
    ghost reliable = { L.Log.reliable };

    ghost keeps = { λ compacted. KeepsShorter L.Log.reliable L.Log.garbled L.Log.content L.Log.may_leave compacted.journal };

    ghost moment = { λ compacted. L.Log.moment compacted.journal.log };

    ghost left_since = { λ compacted. L.Log.left_since compacted.journal.log };

    ghost stands = { λ compacted. FileHas compacted.journal.name.fingerprint };

    ghost fails = { λ cause. (failure : L.Failure) × (L.Failure.cause failure ≡ cause) };

    ghost stays = { λ reliable compacted batches file kept left. kept_stands L.Log.content L.Log.may_leave compacted.journal batches (kept reliable).1 file
        (L.Log.only_now reliable compacted.journal.log file left) };

    fn keep(&mut self, batches: &[Vec<u8>]) -> Result<(), KeepFault> {
        if batches.len() as u64 > u64::MAX - self.journal.count {
            return Err(KeepFault::NoMemory);
        }
        match self.journal.put(batches) {
            Ok(()) => {}
            Err(PutFault::NoMemory) => return Err(KeepFault::NoMemory),
            Err(PutFault::Failed(failure)) => return Err(KeepFault::Failed(failure.cause())),
        }
        match self.compact_where_due() {
            Ok(()) => Ok(()),
            Err(failure) => Err(KeepFault::Failed(failure.cause())),
        }
    }
}
