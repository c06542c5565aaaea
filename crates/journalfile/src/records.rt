//! The records of a journal that is read frame by frame.

ghost use Rattle.std.specs.Prelude.{◌<◌, ◌≤◌, ◌^◌, ◌+◌, drop, IfOk, IfSome, OnOk};
ghost use Rattle.sha2.specs.Sha256.{sha256};
ghost use Rattle.journal.specs.Name.{name_bytes};
ghost use Rattle.journal.specs.Reading.{IsNextRecord};
ghost use Rattle.journalfile.specs.Frames.{IsAhead, IsSearched, IsRead};

use crate::frames::{Frames, ReadError};
use crate::log::Log;
use journal::{JournalName, decode, is_record};
use std::alloc::Global;

/// The batch of the next record, if it has this number. Otherwise frames of other bytes may have been taken.
pub(crate) fn next_record<L: Log>(
    frames: &mut Frames,
    log: &mut L,
    name: &JournalName,
    number: u64,
) -> Result<Option<Vec<u8>>, ReadError<L::Failure>>
    requires ahead { L.reliable → IsAhead (L.content log.old) frames.old }
    ensures ahead { L.reliable → OnOk result (IsAhead (L.content log.old) frames.new) }
    ensures record { L.reliable → IfOk result (λ found. IsNextRecord sha256 (name_bytes name.now) (λ batch. batch.items) number
        (drop frames.old.position (L.content log.old)) found (drop frames.new.position (L.content log.old))) }
    ensures position { IfOk result (λ found. IfSome found (λ batch. frames.old.position + 2 ≤ frames.new.position)) }
    ensures bound { frames.new.position < 2 ^ 64 }
    ensures read { L.reliable → IsRead L.content L.may_leave L.moment L.left_since log.old log.new }
{
    let Some(before) = frames.next_frame(log)? else {
        return Ok(None);
    };
    if !before.is_empty() {
        return Ok(None);
    }
    let Some(frame) = frames.next_frame(log)? else {
        return Ok(None);
    };
    Ok(decode(frames.alloc(), name, number, frame.as_slice())?)
}

/// Whether there is a whole record somewhere in the bytes that are left. Where there is none, they are read to their end.
pub(crate) fn contains_record<L: Log>(
    frames: &mut Frames,
    log: &mut L,
    name: &JournalName,
) -> Result<bool, ReadError<L::Failure>>
    requires ahead { L.reliable → IsAhead (L.content log.old) frames.old }
    ensures ahead { L.reliable → OnOk result (IsAhead (L.content log.old) frames.new) }
    ensures within { L.reliable → IfOk result (IsSearched (name_bytes name.now) (L.content log.old) frames.old frames.new) }
    ensures position { OnOk result (frames.old.position ≤ frames.new.position) }
    ensures read { L.reliable → IsRead L.content L.may_leave L.moment L.left_since log.old log.new }
{
    let Some(_) = frames.next_frame(log)? else {
        return Ok(false);
    };
    while let Some(frame) = frames.next_frame(log)? {
        if is_record(frames.alloc(), name, frame.as_slice())? {
            return Ok(true);
        }
    }
    Ok(false)
}
