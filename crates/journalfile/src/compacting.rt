//! What is left of the batches of a journal, on another log.

ghost use Rattle.std.specs.Prelude.{◌≡◌, ◌≤◌, ◌+◌, ◌++◌, [], List, ℕ, length, IfOk, OnOk};
ghost use Rattle.sha2.specs.Sha256.{sha256};
ghost use Rattle.compaction.specs.Compacted.{commands_of, compacted};
ghost use Rattle.compaction.specs.LastChanges.{AreLast};
ghost use Rattle.journal.specs.Name.{name_bytes};
ghost use Rattle.journal.specs.Record.{header, journal_of, record_of, sequence_bytes};
ghost use Rattle.journalfile.specs.Compacting.{HasWritten, OfAll};
ghost use Rattle.journalfile.specs.Frames.{IsRead};
ghost use Rattle.journalfile.specs.Settled.{NotesLength};

use crate::log::Log;
use crate::reading::{NotCompacted, Reader, Records};
use crate::writing::Journal;
use compaction::LastChanges;
use journal::{push_header, push_record};

// The last changes of the batches of a journal.
pub(crate) fn last_changes<L: Log>(
    records: Records,
    log: &mut L,
) -> Result<LastChanges, NotCompacted>
    ensures last { L.reliable → IfOk result (λ changes. (all : List (List ℕ)) → L.content log.old ≡ journal_of sha256 (name_bytes records.name) all
        → records.count ≡ length all → AreLast changes (commands_of all)) }
    ensures read { L.reliable → IsRead L.content L.may_leave L.moment L.left_since log.old log.new }
{
    let mut changes = LastChanges::new(records.alloc);
    let mut reader = Reader::start(records, log)?;
    while reader.number < records.count {
        let batch = reader.next(log)?;
        changes.note(batch.as_slice())?;
    }
    Ok(changes)
}

// How many batches of a journal are left, by their last changes.
pub(crate) fn count_left<L: Log>(
    records: Records,
    log: &mut L,
    changes: &LastChanges,
) -> Result<u64, NotCompacted>
    ensures counted { L.reliable → IfOk result (λ count. OfAll (L.content log.old) records changes.now (λ all. count ≡ length (compacted all))) }
    ensures fewer { IfOk result (λ count. count ≤ records.count) }
    ensures read { L.reliable → IsRead L.content L.may_leave L.moment L.left_since log.old log.new }
{
    let mut count = 0;
    let mut reader = Reader::start(records, log)?;
    while reader.number < records.count {
        let left = reader.next_left(log, changes)?;
        if !left.is_empty() {
            count += 1;
        }
    }
    Ok(count)
}

// Adds bytes to the log of a journal that isn't synced yet.
fn append<L: Log>(journal: &mut Journal<L>, bytes: &[u8]) -> Result<(), NotCompacted>
    ensures appended { L.reliable → OnOk result (L.content journal.new.log ≡ L.content journal.old.log ++ bytes.now) }
    ensures noted { L.reliable → OnOk result (NotesLength L.content journal.old → NotesLength L.content journal.new) }
    ensures name { journal.new.name ≡ journal.old.name }
    ensures count { journal.new.count ≡ journal.old.count }
{
    journal.length = journal.length.saturating_add(bytes.len() as u64);
    match journal.log.append(bytes) {
        Ok(()) => Ok(()),
        Err(failure) => Err(NotCompacted::failed(failure)),
    }
}

// Adds the header to a journal without bytes.
fn add_header<L: Log>(journal: &mut Journal<L>) -> Result<(), NotCompacted>
    ensures added { L.reliable → OnOk result (L.content journal.new.log ≡ L.content journal.old.log ++ header sha256 (name_bytes journal.old.name)) }
    ensures noted { L.reliable → OnOk result (NotesLength L.content journal.old → NotesLength L.content journal.new) }
    ensures name { journal.new.name ≡ journal.old.name }
    ensures count { journal.new.count ≡ journal.old.count }
{
    let mut bytes = Vec::new(journal.alloc);
    push_header(&mut bytes, &journal.name)?;
    append(journal, bytes.as_slice())
}

// Adds the next batch to a journal that isn't synced yet.
fn add_batch<L: Log>(journal: &mut Journal<L>, batch: &[u8]) -> Result<(), NotCompacted>
    ensures added { L.reliable → OnOk result (L.content journal.new.log
        ≡ L.content journal.old.log ++ record_of sha256 (name_bytes journal.old.name) (sequence_bytes (journal.old.count + 1)) batch.now) }
    ensures noted { L.reliable → OnOk result (NotesLength L.content journal.old → NotesLength L.content journal.new) }
    ensures count { OnOk result (journal.new.count ≡ journal.old.count + 1) }
    ensures name { journal.new.name ≡ journal.old.name }
{
    if journal.count == u64::MAX {
        return Err(NotCompacted::unread());
    }
    let number = journal.count + 1;
    let mut bytes = Vec::new(journal.alloc);
    push_record(&mut bytes, &journal.name, number, batch)?;
    append(journal, bytes.as_slice())?;
    journal.count = number;
    Ok(())
}

// Writes what is left of the batches of a journal to another one without bytes.
pub(crate) fn write_left<L: Log>(
    records: Records,
    log: &mut L,
    changes: &LastChanges,
    successor: &mut Journal<L>,
) -> Result<(), NotCompacted>
    requires empty { successor.old.count ≡ 0 }
    ensures written { L.reliable → L.content successor.old.log ≡ [] → OnOk result (OfAll (L.content log.old) records changes.now
        (λ all. HasWritten L.content successor.old.name (compacted all) successor.new)) }
    ensures noted { L.reliable → OnOk result (NotesLength L.content successor.old → NotesLength L.content successor.new) }
    ensures name { successor.new.name ≡ successor.old.name }
    ensures read { L.reliable → IsRead L.content L.may_leave L.moment L.left_since log.old log.new }
{
    add_header(successor)?;
    let mut reader = Reader::start(records, log)?;
    while reader.number < records.count {
        let left = reader.next_left(log, changes)?;
        if !left.is_empty() {
            add_batch(successor, left.as_slice())?;
        }
    }
    Ok(())
}
