// A compaction on a tape that stops, batches after it, and the fewest and the most bytes that a crash leaves at each moment.

use crate::compacted::{BATCHES, MORE};
use crate::starts::{Opened, PLAIN, keep, shown_after, start};
use crate::written::{batches_of, journal_of};
use std::alloc::{AllocError, Global};
use std::slice::from_ref;
use std::test::Fail;
use test_logs::Tape;

// What the map shows after the batches, and after each that follows.
const SHOWN: [&str; 3] = [
    "p 'c', q off, sequence 8",
    "p 'c', q 'f', sequence 9",
    "p 'c' 'h', q 'f', sequence 10",
];

// The bytes of what is left, and those of it and of each batch that follows.
const LENGTHS: [usize; 3] = [350, 397, 467];

// Whether a start on some bytes shows the one or the other.
fn shows_one(alloc: Global, bytes: &[u8], shown: &[&str]) -> Result<bool, AllocError> {
    let found = shown_after(alloc, bytes)?;
    Ok(shown.iter().any(|text| *text == found.as_str()))
}

// The same of all of some bytes and of the fewest that a crash leaves of them, where so many are synced.
fn both_show(
    alloc: Global,
    bytes: &[u8],
    synced: usize,
    shown: &[&str],
) -> Result<bool, AllocError> {
    if !shows_one(alloc, bytes, shown)? {
        return Ok(false);
    }
    match bytes.get(..synced) {
        Some(fewest) if synced < bytes.len() => shows_one(alloc, fewest, shown),
        _ => Ok(true),
    }
}

// The same of the bytes that a tape has had from a moment on, and that it has.
fn each_showed(
    alloc: Global,
    tape: &Tape,
    from: usize,
    shown: &[&str],
) -> Result<bool, AllocError> {
    for moment in tape.past().get(from..).unwrap_or(&[]) {
        if !both_show(alloc, &moment.bytes, moment.synced, shown)? {
            return Ok(false);
        }
    }
    both_show(alloc, tape.bytes(), tape.synced(), shown)
}

// Whether the tape stops within a compaction or before its end and each crash leaves the batches, where it has so much room.
fn outlive_a_compaction(alloc: Global, room: usize) -> Result<Option<Tape>, AllocError> {
    let tape = Tape::new(alloc, journal_of(alloc, &PLAIN, BATCHES)?, room);
    let Some(Opened { mut journal, .. }) = start(alloc, tape)? else {
        return Ok(None);
    };
    let from = journal.log.past().len();
    let is_compacted = matches!(journal.compact(), Ok(None));
    if is_compacted != (room >= LENGTHS[0]) {
        return Ok(None);
    }
    if !each_showed(alloc, &journal.log, from, &SHOWN[..1])? {
        return Ok(None);
    }
    Ok(Some(journal.log))
}

#[test]
fn a_compaction_is_outlived_where_it_stops(rt: HostRuntime) -> Result<(), Fail> {
    let alloc = rt.alloc();
    for room in 0..=LENGTHS[0] {
        let tape = outlive_a_compaction(alloc, room)?;
        assert!(rt; tape.is_some(), "room {room}");
    }
    Ok(())
}

// Whether batches that follow a compaction outlive each crash, where the tape has so much room: those before, and where it is kept this one.
fn outlive_batches(alloc: Global, room: usize) -> Result<bool, AllocError> {
    let Some(mut tape) = outlive_a_compaction(alloc, room)? else {
        return Ok(false);
    };
    for (at, batch) in batches_of(alloc, MORE)?.iter().enumerate() {
        let from = tape.past().len();
        let Some(kept) = keep(alloc, tape, from_ref(batch))? else {
            return Ok(false);
        };
        tape = kept.journal.log;
        let (Some(before), Some(after)) = (SHOWN.get(at), SHOWN.get(at + 1)) else {
            return Ok(false);
        };
        if !each_showed(alloc, &tape, from, &[*before, *after])? {
            return Ok(false);
        }
        if !kept.is_kept {
            return Ok(LENGTHS.get(at + 1).is_some_and(|length| room < *length));
        }
        if !both_show(alloc, tape.bytes(), tape.synced(), &[*after])? {
            return Ok(false);
        }
    }
    Ok(room >= LENGTHS[2])
}

#[test]
fn batches_after_a_compaction_are_outlived_where_it_stops(rt: HostRuntime) -> Result<(), Fail> {
    let alloc = rt.alloc();
    for room in LENGTHS[0]..=LENGTHS[2] {
        let right = outlive_batches(alloc, room)?;
        assert!(rt; right, "room {room}");
    }
    Ok(())
}

#[test]
fn each_part_of_a_batch_after_a_compaction_is_cut_off(rt: HostRuntime) -> Result<(), Fail> {
    let alloc = rt.alloc();
    let more = batches_of(alloc, MORE)?;
    let tape = outlive_a_compaction(alloc, LENGTHS[2])?.ok_or(AllocError)?;
    let first = more.first().ok_or(AllocError)?;
    let kept = keep(alloc, tape, from_ref(first))?.ok_or(AllocError)?;
    let bytes = kept.journal.log.bytes();
    for end in LENGTHS[0]..LENGTHS[1] {
        let found = shown_after(alloc, bytes.get(..end).unwrap_or(bytes))?;
        assert_eq!(rt; found.as_str(), SHOWN[0], "{end} bytes");
    }
    assert_eq!(rt; shown_after(alloc, bytes)?.as_str(), SHOWN[1]);
    Ok(())
}

#[test]
fn a_journal_that_is_not_compacted_is_served_on(rt: HostRuntime) -> Result<(), Fail> {
    let alloc = rt.alloc();
    let more = batches_of(alloc, MORE)?;
    let tape = outlive_a_compaction(alloc, 200)?.ok_or(AllocError)?;
    let kept = keep(alloc, tape, &more)?.ok_or(AllocError)?;
    assert_eq!(rt; kept.notes.as_str(), " 9+0 10+0");
    let bytes = kept.journal.log.bytes();
    assert_eq!(rt; shown_after(alloc, bytes)?.as_str(), SHOWN[2]);
    Ok(())
}
