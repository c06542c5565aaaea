//! Opening a journal: its batches are applied to a machine once more.

ghost use Rattle.std.specs.Prelude.{◌≡◌, ◌⊎◌, ◌+◌, ◌++◌, List, ℕ, drop, IsSome, IfOk, OnOk, IfErr, MatchResult};
ghost use Rattle.sharing.specs.Sharing.{after};
ghost use Rattle.batches.specs.Batch.{State, accepted};
ghost use Rattle.sha2.specs.Sha256.{sha256};
ghost use Rattle.journal.specs.Header.{StartsWith};
ghost use Rattle.journal.specs.Name.{IsBounded, name_bytes};
ghost use Rattle.journal.specs.declared.name.JournalName.{JournalName};
ghost use Rattle.journal.specs.Record.{header};
ghost use Rattle.journal.specs.Reading.{StandAlike, StandsFor};
ghost use Rattle.keepers.specs.Crashes.{LeavesOnly};
ghost use Rattle.journalfile.specs.Log.{Only};
ghost use Rattle.journalfile.specs.Frames.{IsAhead, IsRead};
ghost use Rattle.journalfile.specs.Recovery.{HasJudged, HasRecovered, HasReplayed, IsFaultOf, IsNameFault, IsReplayFault, IsTransient};

use crate::frames::{Frames, ReadError};
use crate::header::read_header;
use crate::log::Log;
use crate::records::{contains_record, next_record};
use crate::steps::cut_synced;
use journal::{HeaderFault, JournalName};
use mapmachine::{BatchError, Machine};
use std::alloc::Global;

/// A journal that was opened.
#[derive(Clone, Copy, Debug)]
pub struct Recovered {
    /// How many batches it has.
    pub count: u64,
    /// How many bytes its log has.
    pub length: usize,
    /// How many bytes of a torn tail were cut off.
    pub cut: usize,
}

/// Why a journal isn't opened.
#[derive(Drop)]
pub enum RecoverFault<F> {
    /// It isn't a journal, or not that of the map. Nothing was written.
    Header(HeaderFault),
    /// After so many records there are bytes that are no record, and a whole record after them; or more records were written with the
    /// header. Nothing was written.
    Damaged(u64),
    /// The batch of the record of this number isn't accepted. Nothing was written.
    Refused(u64),
    /// Memory was refused. Nothing was written.
    NoMemory,
    /// The log failed.
    Failed(F),
}

impl<F: Drop> From<ReadError<F>> for RecoverFault<F> {
    ghost from_gives = { λ _ fault. IsTransient fault };

    fn from(error: ReadError<F>) -> Self {
        match error {
            ReadError::NoMemory => RecoverFault::NoMemory,
            ReadError::Failed(failure) => RecoverFault::Failed(failure),
        }
    }
}

// A journal that was read, and whose batches were applied.
pub(crate) struct Judged {
    // How many batches it has.
    pub(crate) count: u64,
    // The offset at which its last record ends.
    pub(crate) end: usize,
    // How many bytes follow that.
    pub(crate) cut: usize,
}

// Reads the header of a journal, which is that of its name.
fn read_same_name<L: Log>(
    frames: &mut Frames,
    log: &mut L,
    name: &JournalName,
) -> Result<(), RecoverFault<L::Failure>>
    requires start { frames.old.position ≡ 0 }
    requires ahead { L.reliable → IsAhead (L.content log.old) frames.old }
    ensures ahead { L.reliable → OnOk result (IsAhead (L.content log.old) frames.new) }
    ensures header { L.reliable → OnOk result (L.content log.old ≡ header sha256 (name_bytes name.now) ++ drop frames.new.position (L.content log.old)) }
    ensures fault { L.reliable → IfErr result (λ fault. (first : State) → IsFaultOf name.now L.content log.old log.new first fault) }
    ensures read { L.reliable → IsRead L.content L.may_leave L.moment L.left_since log.old log.new }
{
    match read_header(frames, log, &name.fingerprint) {
        Ok(found) => {
            if name.is_same(&found) {
                Ok(())
            } else {
                Err(RecoverFault::Header(HeaderFault::OtherMap))
            }
        }
        Err(fault) => Err(fault),
    }
}

// Applies the batches of the next records, and returns how many there are and the offset at which the last ends.
fn replay<L: Log>(
    frames: &mut Frames,
    log: &mut L,
    name: &JournalName,
    machine: &mut Machine,
) -> Result<(u64, usize), RecoverFault<L::Failure>>
    requires ahead { L.reliable → IsAhead (L.content log.old) frames.old }
    ensures replayed { IfOk result
        (λ r. HasReplayed
        (name_bytes name.now) L.reliable
        (L.content log.old) frames.old.position machine.old machine.new r.0 r.1) }
    ensures fault { L.reliable → IfErr result (IsReplayFault (name_bytes name.now) (drop frames.old.position (L.content log.old)) machine.old) }
    ensures read { L.reliable → IsRead L.content L.may_leave L.moment L.left_since log.old log.new }
{
    let mut count = 0;
    let mut end = frames.position();
    while let Some(batch) = next_record(frames, log, name, count + 1)? {
        match machine.batch(batch.as_slice()) {
            Ok(_) => {}
            Err(BatchError::Fault(_)) => return Err(RecoverFault::Refused(count + 1)),
            Err(BatchError::NoMemory) => return Err(RecoverFault::NoMemory),
        }
        count += 1;
        end = frames.position();
    }
    Ok((count, end))
}

// Reads a journal from its start, applies its batches, and looks for records after them.
fn judge<L: Log>(
    alloc: Global,
    name: &JournalName,
    log: &mut L,
    machine: &mut Machine,
) -> Result<Judged, RecoverFault<L::Failure>>
    ensures judged { IfOk result (HasJudged name.now L.reliable (L.content log.old) machine.old machine.new) }
    ensures fault { L.reliable → IfErr result (λ fault. IsFaultOf name.now L.content log.old log.new machine.old fault) }
    ensures read { L.reliable → IsRead L.content L.may_leave L.moment L.left_since log.old log.new }
{
    let mut frames = Frames::new(alloc);
    if let Err(fault) = read_same_name(&mut frames, log, name) {
        return Err(fault);
    }
    let (count, end) = match replay(&mut frames, log, name, machine) {
        Ok(replayed) => replayed,
        Err(fault) => return Err(fault),
    };
    // No append can have torn a record that was written with the header.
    if count < name.written() {
        return Err(RecoverFault::Damaged(count));
    }
    frames.go_to(end);
    if contains_record(&mut frames, log, name)? {
        return Err(RecoverFault::Damaged(count));
    }
    Ok(Judged {
        count,
        end,
        cut: frames.position() - end,
    })
}

// Syncs a log, and judges the journal on it. Bytes that a killed process had written may not have been synced.
fn judge_synced<L: Log>(
    alloc: Global,
    name: &JournalName,
    log: &mut L,
    machine: &mut Machine,
) -> Result<Judged, RecoverFault<L::Failure>>
    ensures judged { IfOk result (HasJudged name.now L.reliable (L.content log.old) machine.old machine.new) }
    ensures durable { L.reliable → OnOk result (Only (L.content log.old) (L.may_leave log.new)) }
    ensures fault { L.reliable → IfErr result (λ fault. IsFaultOf name.now L.content log.old log.new machine.old fault) }
    ensures read { L.reliable → IsRead L.content L.may_leave L.moment L.left_since log.old log.new }
{
    match log.sync() {
        Ok(()) => judge(alloc, name, log, machine),
        Err(failure) => Err(RecoverFault::Failed(failure)),
    }
}

// Opens a journal. That a file which stands for accepted batches is opened is a clause of `recover`.
fn open_log<L: Log>(
    alloc: Global,
    name: &JournalName,
    log: &mut L,
    machine: &mut Machine,
) -> Result<Recovered, RecoverFault<L::Failure>>
    ensures recovered { IfOk result (HasRecovered name.now L.content L.reliable L.may_leave log.old log.new machine.old machine.new) }
    ensures fault { L.reliable → IfErr result (λ fault. IsFaultOf name.now L.content log.old log.new machine.old fault) }
    ensures any_moment { L.reliable → LeavesOnly L.moment L.left_since log.old log.new
        (λ c. L.may_leave log.old c ⊎ StandAlike name.now (L.content log.old) c) }
{
    let Judged { count, end, cut } = match judge_synced(alloc, name, log, machine) {
        Ok(judged) => judged,
        Err(fault) => return Err(fault),
    };
    match cut_synced(log, end) {
        Ok(()) => Ok(Recovered {
            count,
            length: end,
            cut,
        }),
        Err(failure) => Err(RecoverFault::Failed(failure)),
    }
}

/// The name of the journal of a map, by its header. The machine that is given to `recover` has published as many batches as were left out
/// of the journal.
pub fn read_name<L: Log>(
    alloc: Global,
    fingerprint: &[u8; 32],
    log: &mut L,
) -> Result<JournalName, RecoverFault<L::Failure>>
    ensures header { L.reliable → IfOk result (λ name. StartsWith (header sha256 (name_bytes name)) (L.content log.old)) }
    ensures of_map { IfOk result (λ name. name.fingerprint ≡ fingerprint.now) }
    ensures bounded { IfOk result (λ name. IsBounded name.compaction) }
    ensures fault { L.reliable → IfErr result (λ fault. IsNameFault fingerprint.now L.content log.old log.new fault) }
    ensures read { L.reliable → IsRead L.content L.may_leave L.moment L.left_since log.old log.new }

    // Of a file that stands for batches the name is returned, unless memory is refused or the log fails.
    ensures opens { L.reliable → (name : JournalName) (batches : List (List ℕ)) → name.fingerprint ≡ fingerprint.now → IsBounded name.compaction
        → StandsFor name (L.content log.old) batches → MatchResult result (λ found. found ≡ name) IsTransient }
{
    match read_header(&mut Frames::new(alloc), log, fingerprint) {
        Ok(name) => Ok(name),
        Err(fault) => Err(fault),
    }
}

/// Opens the journal of a map, whatever a crash left of it: applies its batches to the machine of the mapfile, and cuts a torn tail
/// off. It returns how many batches there are, and how long that tail was. All is read and judged before anything is written.
///
/// After a fault the state of the machine is unspecified.
pub fn recover<L: Log>(
    alloc: Global,
    name: &JournalName,
    log: &mut L,
    machine: &mut Machine,
) -> Result<Recovered, RecoverFault<L::Failure>>
    ensures recovered { IfOk result (HasRecovered name.now L.content L.reliable L.may_leave log.old log.new machine.old machine.new) }
    ensures counted { IfOk result (λ recovered. machine.new.sequence ≡ machine.old.sequence + recovered.count) }
    ensures fault { L.reliable → IfErr result (λ fault. IsFaultOf name.now L.content log.old log.new machine.old fault) }

    // A file that stands for accepted batches is opened, unless memory is refused or the log fails.
    ensures opens { L.reliable → (batches : List (List ℕ)) → StandsFor name.now (L.content log.old) batches
        → IsSome (after accepted machine.old batches) → IfErr result IsTransient }

    // A crash at any moment leaves bytes that a crash before might have left, or bytes that stand for the same batches.
    ensures any_moment { L.reliable → LeavesOnly L.moment L.left_since log.old log.new
        (λ c. L.may_leave log.old c ⊎ StandAlike name.now (L.content log.old) c) }
{
    // the answer on `opens` takes from it that a fingerprint has 32 bytes
    let _fingerprint = name.fingerprint;
    match open_log(alloc, name, log, machine) {
        Ok(recovered) => Ok(recovered),
        Err(fault) => Err(fault),
    }
}
