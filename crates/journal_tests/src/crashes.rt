// A service over a tape that stops at each byte, and the bytes that a crash leaves of it.

use crate::maps::machine;
use crate::records::recorded_batches;
use journal::{JournalName, push_header, push_record};
use journalfile::{Journal, Recovered, recover};
use std::alloc::{AllocError, Global};
use std::slice::from_ref;
use std::test::Fail;
use test_logs::Tape;

const JOURNAL: JournalName = JournalName {
    fingerprint: [7; 32],
    compaction: None,
};

// The layer's name is U+06DC, whose first byte is an ESC.
const NAME: &str = "\u{6dc}";

const BATCHES: [&[u8]; 3] = [b"OFF \xdb\x9c\n", b"", b"ON \xdb\x9c\n"];

// The journal of the first batches.
fn journal_of(alloc: Global, count: usize) -> Result<Vec<u8>, AllocError> {
    let mut bytes = Vec::new(alloc);
    push_header(&mut bytes, &JOURNAL)?;
    for at in 0..count.min(BATCHES.len()) {
        push_record(&mut bytes, &JOURNAL, at as u64 + 1, BATCHES[at])?;
    }
    Ok(bytes)
}

// How many batches a start finds in some bytes; 99 is a fault.
fn found(alloc: Global, bytes: &[u8]) -> Result<u64, AllocError> {
    let mut tape = Tape::new(alloc, bytes.to_vec(alloc)?, 0);
    let mut machine = machine(alloc, NAME)?;
    match recover(alloc, &JOURNAL, &mut tape, &mut machine) {
        Ok(recovered) => Ok(recovered.count),
        Err(_) => Ok(99),
    }
}

// Whether these bytes are a journal of the first of the batches, so many of them.
fn are_first(alloc: Global, bytes: &[u8], count: u64) -> bool {
    let Ok(found) = recorded_batches(alloc, &JOURNAL, bytes) else {
        return false;
    };
    let are_equal = found
        .iter()
        .zip(BATCHES)
        .all(|(batch, expected)| batch.as_slice() == expected);
    are_equal && found.len() as u64 == count
}

// Starts on a tape, and keeps batches. Returns whether that was done.
fn keep(alloc: Global, tape: Tape, batches: &[Vec<u8>]) -> Result<(Tape, bool), AllocError> {
    let mut tape = tape;
    let mut machine = machine(alloc, NAME)?;
    let Ok(Recovered { count, length, .. }) = recover(alloc, &JOURNAL, &mut tape, &mut machine)
    else {
        return Ok((tape, false));
    };
    if count > 9 || batches.len() > 9 {
        return Ok((tape, false));
    }
    let mut journal = Journal {
        alloc,
        log: tape,
        name: JOURNAL,
        count,
        length: length as u64,
    };
    let is_kept = journal.put(batches).is_ok();
    Ok((journal.log, is_kept))
}

// How many batches a tape has taken that stops after so many bytes.
fn run(alloc: Global, room: usize) -> Result<(Tape, u64), AllocError> {
    let mut tape = Tape::new(alloc, journal_of(alloc, 0)?, room);
    let mut kept = 0;
    for batch in BATCHES {
        let batch = Vec::from_slice(alloc, batch)?;
        let (after, is_kept) = keep(alloc, tape, from_ref(&batch))?;
        tape = after;
        if !is_kept || kept >= 9 {
            break;
        }
        kept += 1;
    }
    Ok((tape, kept))
}

#[test]
fn what_was_kept_is_found_wherever_it_stops(rt: HostRuntime) -> Result<(), Fail> {
    let alloc = rt.alloc();
    let whole = journal_of(alloc, 3)?;
    for room in 0..whole.len() {
        let (tape, kept) = run(alloc, room)?;
        let bytes = tape.bytes();
        for left in tape.synced()..bytes.len() {
            let count = found(alloc, &bytes[..left])?;
            assert!(rt;
                kept <= count && count - kept <= 1,
                "room {room}, left {left}: {count} of {kept}"
            );
        }
        let count = found(alloc, bytes)?;
        assert!(rt;
            kept <= count && count - kept <= 1,
            "room {room}: {count} of {kept}"
        );
    }
    Ok(())
}

// All batches.
fn all_batches(alloc: Global) -> Result<Vec<Vec<u8>>, AllocError> {
    let mut batches = Vec::new(alloc);
    for batch in BATCHES {
        batches.push(Vec::from_slice(alloc, batch)?)?;
    }
    Ok(batches)
}

// Whether a start finds the first batches in the bytes that a crash leaves of a tape on which all were put at once, and all of
// them where this was done. The tape stops after so many bytes.
fn are_first_found(alloc: Global, batches: &[Vec<u8>], room: usize) -> Result<bool, AllocError> {
    let tape = Tape::new(alloc, journal_of(alloc, 0)?, room);
    let (tape, is_kept) = keep(alloc, tape, batches)?;
    let bytes = tape.bytes();
    for left in tape.synced()..=bytes.len() {
        let left = bytes.get(..left).unwrap_or(bytes);
        let count = found(alloc, left)?;
        if !are_first(alloc, left, count) || (is_kept && count != 3) {
            return Ok(false);
        }
    }
    Ok(true)
}

#[test]
fn the_first_of_three_are_found_wherever_it_stops(rt: HostRuntime) -> Result<(), Fail> {
    let alloc = rt.alloc();
    let batches = all_batches(alloc)?;
    let header = journal_of(alloc, 0)?;
    let whole = journal_of(alloc, 3)?;
    let size = whole.len().saturating_sub(header.len());
    for room in 0..=size {
        let right = are_first_found(alloc, &batches, room)?;
        assert!(rt; right, "room {room}");
    }
    let (tape, is_kept) = keep(alloc, Tape::new(alloc, header, size), &batches)?;
    assert!(rt; is_kept && tape.bytes() == whole.as_slice());
    Ok(())
}

#[test]
fn damage_to_each_byte_is_refused_or_cut_off(rt: HostRuntime) -> Result<(), Fail> {
    let alloc = rt.alloc();
    let whole = journal_of(alloc, 2)?;
    assert_eq!(rt; found(alloc, whole.as_slice())?, 2);
    let first = journal_of(alloc, 1)?.len();
    for at in 0..whole.len() {
        let mut bytes = whole.clone()?;
        if at < bytes.len() {
            bytes[at] = if bytes[at] == 1 { 2 } else { 1 };
        }
        let count = found(alloc, bytes.as_slice())?;
        let expected = if at < first { 99 } else { 1 };
        assert_eq!(rt; count, expected, "byte {at}");
    }
    Ok(())
}
