//! Starts on a log, as those of a service, and what is kept after them.

ghost use Rattle.std.specs.Prelude.{ℕ, List, IfOk, IfSome};
ghost use Rattle.journal.specs.Name.{IsBounded};
ghost use Rattle.journalfile.specs.Settled.{IsSettled};

use crate::maps::{shown, two_layers};
use journal::{Compaction, JournalName};
use journalfile::{Checkpoint, CompactedJournal, Journal, Log, Recovered, read_name, recover};
use keepers::Keeps;
use mapmachine::Machine;
use std::alloc::{AllocError, Global};
use std::slice::from_ref;
use test_logs::Tape;

/// The fingerprint of the map.
pub const FINGERPRINT: [u8; 32] = [7; 32];

/// The name of the map's journal that was never compacted.
pub const PLAIN: JournalName = JournalName {
    fingerprint: FINGERPRINT,
    compaction: None,
};

/// The name of the map's journal of which so many batches were left out, and so many written with its header.
pub fn compacted(skipped: u64, written: u64) -> JournalName {
    JournalName {
        fingerprint: FINGERPRINT,
        compaction: Some(Compaction { skipped, written }),
    }
}

/// A journal that was opened, and the machine of the map after its batches.
#[derive(Drop)]
pub struct Opened<L> {
    pub journal: Journal<L>,
    pub machine: Machine,
}

// Opens the journal of the map on a log. There is none where it isn't opened.
fn open<L: Log + Drop>(alloc: Global, log: L) -> Result<Option<Opened<L>>, AllocError>
    ensures settled { IfOk result (λ found. IfSome found (λ opened. (kept : List (List ℕ))
        × (L.reliable → IsSettled L.content L.may_leave opened.journal kept))) }
    ensures bounded { IfOk result (λ found. IfSome found (λ opened. IsBounded opened.journal.name.compaction)) }
{
    let mut log = log;
    let Ok(name) = read_name(alloc, &FINGERPRINT, &mut log) else {
        return Ok(None);
    };
    let mut machine = two_layers(alloc, name.skipped())?;
    let Ok(Recovered { count, length, .. }) = recover(alloc, &name, &mut log, &mut machine) else {
        return Ok(None);
    };
    let journal = Journal {
        alloc,
        log,
        name,
        count,
        length: length as u64,
    };
    Ok(Some(Opened { journal, machine }))
}

/// Opens the journal of the map on a tape.
pub fn start(alloc: Global, tape: Tape) -> Result<Option<Opened<Tape>>, AllocError> {
    open::<Tape>(alloc, tape)
}

// What a start finds in some bytes: what is noted of its journal, and of its machine.
fn start_on(alloc: Global, bytes: &[u8]) -> Result<(String, String), AllocError> {
    let tape = Tape::new(alloc, bytes.to_vec(alloc)?, 0);
    match start(alloc, tape)? {
        Some(Opened { journal, machine }) => {
            let (count, skipped) = (journal.count, journal.name.skipped());
            let counts = format!(in alloc; "{count} there, {skipped} left out")?;
            Ok((counts, shown(alloc, &machine)?))
        }
        None => Ok((String::from_str(alloc, "refused")?, String::new(alloc))),
    }
}

/// How many batches a start on some bytes finds and how many were left out, and what the map shows after it.
pub fn found(alloc: Global, bytes: &[u8]) -> Result<String, AllocError> {
    let (counts, shown) = start_on(alloc, bytes)?;
    format!(in alloc; "{counts}: {shown}")
}

/// What the map shows after a start on some bytes.
pub fn shown_after(alloc: Global, bytes: &[u8]) -> Result<String, AllocError> {
    let (_, shown) = start_on(alloc, bytes)?;
    Ok(shown)
}

/// Batches that were kept, each by a call, and the journal after the last call.
#[derive(Drop)]
pub struct Kept {
    pub journal: Journal<Tape>,
    /// No call failed.
    pub is_kept: bool,
    /// What was noted after each call.
    pub notes: String,
}

// A keeper with a journal, of which is noted how many batches it has and how many were left out.
trait Noted: Keeps {
    fn note(&self, alloc: Global) -> Result<String, AllocError>;
}

impl Noted for Journal<Tape> {
    fn note(&self, alloc: Global) -> Result<String, AllocError> {
        format!(in alloc; " {}+{}", self.count, self.name.skipped())
    }
}

// Of a journal that is compacted the length is noted at which it is due.
impl Noted for CompactedJournal<Tape> {
    fn note(&self, alloc: Global) -> Result<String, AllocError> {
        let of_journal = self.journal.note(alloc)?;
        format!(in alloc; "{of_journal}<{}", self.checkpoint.due)
    }
}

// Keeps batches, up to the first that isn't kept. Returns whether all were, and what was noted after each that was.
fn keep_each<K: Noted>(
    alloc: Global,
    keeper: &mut K,
    batches: &[Vec<u8>],
) -> Result<(bool, String), AllocError>
    requires ready { (kept : List (List ℕ)) × K.Keeps.keeps keeper.old kept }
{
    let mut notes = String::new(alloc);
    for batch in batches {
        match keeper.keep(from_ref(batch)) {
            Ok(()) => {}
            Err(_) => return Ok((false, notes)),
        }
        notes.push_str(keeper.note(alloc)?.as_str())?;
    }
    Ok((true, notes))
}

/// Opens the journal of the map on a tape, and keeps batches, up to the first that isn't kept.
pub fn keep(alloc: Global, tape: Tape, batches: &[Vec<u8>]) -> Result<Option<Kept>, AllocError> {
    let Some(Opened { mut journal, .. }) = open::<Tape>(alloc, tape)? else {
        return Ok(None);
    };
    let (is_kept, notes) = keep_each::<Journal<Tape>>(alloc, &mut journal, batches)?;
    Ok(Some(Kept {
        journal,
        is_kept,
        notes,
    }))
}

/// The same, where the journal is compacted as it grows.
pub fn keep_compacted(
    alloc: Global,
    tape: Tape,
    checkpoint: Checkpoint,
    batches: &[Vec<u8>],
) -> Result<Option<Kept>, AllocError> {
    let Some(Opened { journal, .. }) = open::<Tape>(alloc, tape)? else {
        return Ok(None);
    };
    let mut compacted = CompactedJournal {
        journal,
        checkpoint,
        is_reported: false,
    };
    let (is_kept, notes) = keep_each::<CompactedJournal<Tape>>(alloc, &mut compacted, batches)?;
    Ok(Some(Kept {
        journal: compacted.journal,
        is_kept,
        notes,
    }))
}
