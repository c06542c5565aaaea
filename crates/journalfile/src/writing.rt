//! A journal that batches are added to.

ghost use Rattle.std.specs.Prelude.{◌≡◌, ◌<◌, ◌+◌, ◌^◌, ◌++◌, List, ℕ, length, IfOk, OnOk, Err};
ghost use Rattle.sha2.specs.Sha256.{sha256};
ghost use Rattle.keepers.specs.Crashes.{LeavesOnly};
ghost use Rattle.journal.specs.Name.{name_bytes};
ghost use Rattle.journal.specs.Texts.{texts_of};
ghost use Rattle.journal.specs.Reading.{StandsForFirst};
ghost use Rattle.journal.specs.Record.{records};
ghost use Rattle.journalfile.specs.Settled.{GarblesNoRecord, IsSettled};

use crate::log::Log;
use crate::steps::append_synced;
use journal::{JournalName, push_record};
use std::alloc::{AllocError, Global};

/// The journal of a map, on a log.
#[derive(Drop)]
pub struct Journal<L> {
    /// The allocator of its records.
    pub alloc: Global,
    /// The log that it is on.
    pub log: L,
    /// Its name.
    pub name: JournalName,
    /// How many batches it has.
    pub count: u64,
    /// How many bytes its log has.
    pub length: u64,
}

/// Why batches aren't in the journal.
#[derive(Drop)]
pub enum PutFault<F> {
    /// Memory was refused, and nothing was done.
    NoMemory,
    /// The log failed: the batches that it keeps are unknown, and the journal has to be opened again.
    Failed(F),
}

// The records of batches that follow so many others.
fn records_of(
    alloc: Global,
    name: &JournalName,
    before: u64,
    batches: &[Vec<u8>],
) -> Result<Vec<u8>, AllocError>
    requires room { before + length batches.now < 2 ^ 64 }
    ensures { IfOk result (λ bytes. bytes.items ≡ records sha256 (name_bytes name.now) (before + 1) (texts_of batches.now)) }
{
    let mut out = Vec::new(alloc);
    let mut number = before;
    for batch in batches {
        number += 1;
        push_record(&mut out, name, number, batch.as_slice())?;
    }
    Ok(out)
}

impl<L: Log> Journal<L> {
    /// Adds batches, in their order, by one sync. At `Ok` all are kept: each crash from then on leaves a file that has them.
    pub fn put(&mut self, batches: &[Vec<u8>]) -> Result<(), PutFault<L::Failure>>
        // The digests show which bytes a crash has garbled.
        requires recognised { L.reliable → GarblesNoRecord L.garbled (name_bytes self.old.name) }
        requires settled { L.reliable → (kept : List (List ℕ)) × IsSettled L.content L.may_leave self.old kept }
        requires room { self.old.count + length batches.now < 2 ^ 64 }

        ensures kept { L.reliable → OnOk result ((kept : List (List ℕ)) → IsSettled L.content L.may_leave self.old kept
            → IsSettled L.content L.may_leave self.new (kept ++ texts_of batches.now)) }

        // A crash at any moment of the call leaves the batches from before it, and after them the first of the new ones, or none.
        ensures any_moment { L.reliable → (kept : List (List ℕ)) → IsSettled L.content L.may_leave self.old kept
            → LeavesOnly L.moment L.left_since self.old.log self.new.log (StandsForFirst self.old.name kept (texts_of batches.now)) }

        ensures no_memory { result ≡ Err PutFault.NoMemory → self.new ≡ self.old }
        ensures name { self.new.name ≡ self.old.name }
    {
        let Ok(records) = records_of(self.alloc, &self.name, self.count, batches) else {
            return Err(PutFault::NoMemory);
        };
        if let Err(failure) = append_synced(&mut self.log, records.as_slice()) {
            return Err(PutFault::Failed(failure));
        }
        self.count += batches.len() as u64;
        self.length = self.length.saturating_add(records.len() as u64);
        Ok(())
    }
}
