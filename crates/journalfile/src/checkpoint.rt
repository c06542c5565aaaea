//! A journal that is written again without the commands that later ones undo, and takes its own place.

ghost use Rattle.std.specs.Prelude.{◌≡◌, ◌<◌, ◌≤◌, ◌+◌, ◌-◌, [], List, ℕ, None, Some, Ok, length, IfOk, OnOk};
ghost use Rattle.compaction.specs.Compacted.{compacted};
ghost use Rattle.journal.specs.Name.{IsBounded, journal_name, skipped_of, written_of};
ghost use Rattle.journalfile.specs.Compacting.{HasCompacted, IsCompacted, OfAll, StandsForLeft, next_checkpoint};
ghost use Rattle.journalfile.specs.Frames.{IsRead};
ghost use Rattle.journalfile.specs.Keeping.{FileHas, JournalHas};
ghost use Rattle.keepers.specs.Crashes.{LeavesOnly};
ghost use Rattle.journalfile.specs.Log.{Only};
ghost use Rattle.journalfile.specs.Settled.{IsSettled, NotesLength};

use crate::compacting::{count_left, last_changes, write_left};
use crate::log::Log;
use crate::reading::{NotCompacted, Records};
use crate::replaceable::{ReplaceFault, Replaceable};
use crate::writing::Journal;
use compaction::LastChanges;
use journal::{Compaction, JournalName};

/// When a journal is compacted as it is served.
#[derive(Clone, Copy, Debug)]
pub struct Checkpoint {
    /// The least length at which it is, in bytes.
    pub least: u64,
    /// The length from which on it is compacted next.
    pub due: u64,
}

// A journal without bytes beside another one, for so many of its batches, all of which are to be written with its header.
fn beside<L: Replaceable>(journal: &mut Journal<L>, left: u64) -> Result<Journal<L>, NotCompacted>
    requires fewer { left ≤ journal.old.count }
    ensures empty { L.reliable → IfOk result (λ successor. L.content successor.log ≡ []) }
    ensures noted { L.reliable → IfOk result (NotesLength L.content) }
    ensures count { IfOk result (λ successor. successor.count ≡ 0) }
    ensures named { IfOk result (λ successor. successor.name ≡ journal_name journal.old.name.fingerprint
        (Some (record { skipped = skipped_of journal.old.name.compaction + (journal.old.count - left); written = left }))) }
    ensures bounded { IfOk result (λ successor. IsBounded successor.name.compaction) }
    ensures same { (journal.new.name ≡ journal.old.name) × (journal.new.count ≡ journal.old.count) × (journal.new.length ≡ journal.old.length) }
    ensures read { L.reliable → IsRead L.content L.may_leave L.moment L.left_since journal.old.log journal.new.log }
{
    let out = journal.count - left;
    let Some(skipped) = journal.name.skipped().checked_add(out) else {
        return Err(NotCompacted::unread());
    };
    let name = JournalName {
        fingerprint: journal.name.fingerprint,
        compaction: Some(Compaction {
            skipped,
            written: left,
        }),
    };
    match journal.log.beside() {
        Ok(log) => Ok(Journal {
            alloc: journal.alloc,
            log,
            name,
            count: 0,
            length: 0,
        }),
        Err(failure) => Err(NotCompacted::failed(failure)),
    }
}

// Writes what is left of the batches of a journal to one without bytes, and syncs it.
fn write_synced<L: Log>(
    records: Records,
    log: &mut L,
    changes: &LastChanges,
    successor: &mut Journal<L>,
) -> Result<(), NotCompacted>
    requires empty { successor.old.count ≡ 0 }
    requires noted { L.reliable → NotesLength L.content successor.old }
    ensures settled { L.reliable → L.content successor.old.log ≡ [] → OnOk result (OfAll (L.content log.old) records changes.now
        (λ all. written_of successor.old.name.compaction ≤ length (compacted all) → IsSettled L.content L.may_leave successor.new (compacted all))) }
    ensures synced { L.reliable → OnOk result (Only (L.content successor.new.log) (L.may_leave successor.new.log)) }
    ensures name { successor.new.name ≡ successor.old.name }
    ensures read { L.reliable → IsRead L.content L.may_leave L.moment L.left_since log.old log.new }
{
    write_left(records, log, changes, successor)?;
    match successor.log.sync() {
        Ok(()) => Ok(()),
        Err(failure) => Err(NotCompacted::failed(failure)),
    }
}

// The journal that is to take the place of another one: what is left of its batches, on a log beside its own.
fn successor_of<L: Replaceable>(journal: &mut Journal<L>) -> Result<Journal<L>, NotCompacted>
    ensures compacted { L.reliable → IfOk result (λ successor. (own : List (List ℕ)) → IsSettled L.content L.may_leave journal.old own
        → IsCompacted L.content L.may_leave journal.old.name own successor) }
    ensures synced { L.reliable → IfOk result (λ successor. Only (L.content successor.log) (L.may_leave successor.log)) }
    ensures of_map { IfOk result (λ successor. successor.name.fingerprint ≡ journal.old.name.fingerprint) }
    ensures bounded { IfOk result (λ successor. IsBounded successor.name.compaction) }
    ensures same { (journal.new.name ≡ journal.old.name) × (journal.new.count ≡ journal.old.count) × (journal.new.length ≡ journal.old.length) }
    ensures read { L.reliable → IsRead L.content L.may_leave L.moment L.left_since journal.old.log journal.new.log }
{
    let records = Records {
        alloc: journal.alloc,
        name: journal.name,
        count: journal.count,
    };
    let changes = last_changes(records, &mut journal.log)?;
    let left = count_left(records, &mut journal.log, &changes)?;
    let mut successor = beside(journal, left)?;
    match write_synced(records, &mut journal.log, &changes, &mut successor) {
        Ok(()) => Ok(successor),
        Err(fault) => {
            successor.log.discard();
            Err(fault)
        }
    }
}

impl<L: Replaceable> Journal<L> {
    /// Writes the journal again without the commands that later ones undo and the batches of which none is left, on a log that takes the
    /// place of its own. It returns why it didn't, if it didn't: where memory is refused, or the other log can't be made, written, synced
    /// or put in its place, the journal has the batches that it had. After an error the journal has to be opened again.
    pub fn compact(&mut self) -> Result<Option<NotCompacted>, L::Failure>
        ensures compacted { L.reliable → IfOk result (λ why. (own : List (List ℕ)) → IsSettled L.content L.may_leave self.old own
            → HasCompacted L.content L.may_leave self.old self.new own why) }

        // A crash at any moment leaves its batches, or what is left of them under its next name.
        ensures any_moment { L.reliable → (own : List (List ℕ)) → IsSettled L.content L.may_leave self.old own
            → LeavesOnly L.moment L.left_since self.old.log self.new.log (StandsForLeft self.old.name own) }

        ensures of_map { self.new.name.fingerprint ≡ self.old.name.fingerprint }
    {
        let successor = match successor_of(self) {
            Ok(successor) => successor,
            Err(why) => return Ok(Some(why)),
        };
        let Journal {
            log,
            name,
            count,
            length,
            ..
        } = successor;
        match self.log.replace(log) {
            Ok(()) => {}
            Err(ReplaceFault::NotReplaced(failure)) => {
                return Ok(Some(NotCompacted::failed(failure)));
            }
            Err(ReplaceFault::Failed(failure)) => return Err(failure),
        }
        self.name = name;
        self.count = count;
        self.length = length;
        Ok(None)
    }
}

/// A journal that is compacted as it is served.
#[derive(Drop)]
pub struct CompactedJournal<L> {
    /// The journal.
    pub journal: Journal<L>,
    /// When it is compacted.
    pub checkpoint: Checkpoint,
    /// That it is due and isn't compacted is reported.
    pub is_reported: bool,
}

impl<L: Replaceable> CompactedJournal<L> {
    // Compacts the journal where it is due, and says when it is due next: where it has twice the bytes that it has now, and the least
    // length at least. Before it is due, nothing changes. It returns why it isn't compacted, where it is due and isn't.
    fn try_where_due(&mut self) -> Result<Option<NotCompacted>, L::Failure>
        ensures early { self.old.journal.length < self.old.checkpoint.due → (self.new ≡ self.old) × (result ≡ Ok None) }
        ensures next { self.old.checkpoint.due ≤ self.old.journal.length
            → OnOk result (self.new.checkpoint ≡ next_checkpoint self.old.checkpoint self.new.journal.length) }
        ensures compacted { L.reliable → self.old.checkpoint.due ≤ self.old.journal.length → IfOk result (λ why. (own : List (List ℕ))
            → IsSettled L.content L.may_leave self.old.journal own → HasCompacted L.content L.may_leave self.old.journal self.new.journal own why) }
        ensures has { L.reliable → OnOk result ((batches : List (List ℕ)) → JournalHas L.content L.may_leave self.old.journal batches
            → JournalHas L.content L.may_leave self.new.journal batches) }
        ensures any_moment { L.reliable → (batches : List (List ℕ)) → JournalHas L.content L.may_leave self.old.journal batches
            → LeavesOnly L.moment L.left_since self.old.journal.log self.new.journal.log (λ file. FileHas self.old.journal.name.fingerprint file batches) }
        ensures of_map { self.new.journal.name.fingerprint ≡ self.old.journal.name.fingerprint }
    {
        if self.journal.length < self.checkpoint.due {
            return Ok(None);
        }
        let why = self.journal.compact()?;
        let twice = self.journal.length.saturating_mul(2);
        self.checkpoint.due = twice.max(self.checkpoint.least);
        Ok(why)
    }

    /// Compacts the journal where it is due, as each batch does that is kept, and reports why it isn't compacted, where it is due and that is
    /// requested. It is due again where it has twice the bytes that it has then, and the least length at least. Before it is due, nothing
    /// changes. After an error the journal has to be opened again.
    pub fn compact_where_due(&mut self) -> Result<(), L::Failure>
        ensures early { self.old.journal.length < self.old.checkpoint.due → self.new ≡ self.old }
        ensures next { self.old.checkpoint.due ≤ self.old.journal.length
            → OnOk result (self.new.checkpoint ≡ next_checkpoint self.old.checkpoint self.new.journal.length) }
        ensures has { L.reliable → OnOk result ((batches : List (List ℕ)) → JournalHas L.content L.may_leave self.old.journal batches
            → JournalHas L.content L.may_leave self.new.journal batches) }
        ensures any_moment { L.reliable → (batches : List (List ℕ)) → JournalHas L.content L.may_leave self.old.journal batches
            → LeavesOnly L.moment L.left_since self.old.journal.log self.new.journal.log (λ file. FileHas self.old.journal.name.fingerprint file batches) }
        ensures of_map { self.new.journal.name.fingerprint ≡ self.old.journal.name.fingerprint }
    {
        match self.try_where_due()? {
            Some(why) if self.is_reported => self.journal.log.report(why),
            _ => {}
        }
        Ok(())
    }
}
