// Journals that are longer than the pieces of 65,536 bytes in which they are read.

use crate::maps::machine;
use crate::short_reads::ShortReads;
use journal::{JournalName, push_header, push_record};
use journalfile::{RecoverFault, Recovered, recover};
use std::alloc::{AllocError, Global};
use std::test::Fail;

const JOURNAL: JournalName = JournalName {
    fingerprint: [7; 32],
    compaction: None,
};

// The bytes that are read at a time.
const PIECE: usize = 65_536;

// A batch of so many bytes, 25 at least, in commands of 5 and of 6.
fn batch_of(alloc: Global, length: usize) -> Result<Vec<u8>, AllocError> {
    let mut batch = Vec::new(alloc);
    for _ in 0..(6 - length % 6) % 6 {
        batch.extend_from_slice(b"ON a\n")?;
    }
    for _ in 0..length / 6 {
        if batch.len() < length {
            batch.extend_from_slice(b"OFF a\n")?;
        }
    }
    Ok(batch)
}

// The journal of batches of these lengths.
fn journal_of(alloc: Global, lengths: &[usize]) -> Result<Vec<u8>, AllocError> {
    let mut bytes = Vec::new(alloc);
    push_header(&mut bytes, &JOURNAL)?;
    for (at, length) in lengths.iter().enumerate() {
        let batch = batch_of(alloc, *length)?;
        push_record(&mut bytes, &JOURNAL, at as u64 + 1, batch.as_slice())?;
    }
    Ok(bytes)
}

// A log of these bytes, of which each read returns so many at most.
fn log_of(bytes: Vec<u8>, most: usize) -> ShortReads {
    ShortReads {
        bytes,
        most,
        reads: 0,
        failing: None,
    }
}

// How a start on a log ends.
fn start(alloc: Global, log: &mut ShortReads) -> Result<String, AllocError> {
    let mut machine = machine(alloc, "a")?;
    match recover(alloc, &JOURNAL, log, &mut machine) {
        Ok(Recovered { count, cut, .. }) => format!(in alloc; "{count} batches, {cut} bytes cut"),
        Err(RecoverFault::Damaged(count)) => format!(in alloc; "damaged after record {count}"),
        Err(RecoverFault::Failed(_)) => String::from_str(alloc, "failed"),
        Err(_) => String::from_str(alloc, "another fault"),
    }
}

#[test]
fn records_are_longer_than_a_piece(rt: HostRuntime) -> Result<(), Fail> {
    let alloc = rt.alloc();
    for most in [100_000, 65_535, 1_000] {
        let mut log = log_of(journal_of(alloc, &[70_000, 131_072, 30])?, most);
        let found = start(alloc, &mut log)?;
        assert_eq!(rt; found.as_str(), "3 batches, 0 bytes cut", "{most}");
    }
    Ok(())
}

// A header of 50 bytes, an END, 8 bytes of a number, the batch and 32 bytes of a digest, of which few are escaped, are before the last END.
#[test]
fn an_end_is_at_the_border_of_two_pieces(rt: HostRuntime) -> Result<(), Fail> {
    let alloc = rt.alloc();
    let mut is_last = false;
    let mut is_first = false;
    for length in 65_440..65_450 {
        let end = journal_of(alloc, &[length])?.len();
        is_last = is_last || end == PIECE;
        is_first = is_first || end == PIECE + 1;
        let mut log = log_of(journal_of(alloc, &[length, 30])?, PIECE);
        let found = start(alloc, &mut log)?;
        assert_eq!(rt; found.as_str(), "2 batches, 0 bytes cut", "{length}");
    }
    assert!(rt; is_last && is_first);
    Ok(())
}

#[test]
fn each_byte_is_at_the_border_of_two_reads(rt: HostRuntime) -> Result<(), Fail> {
    let alloc = rt.alloc();
    let kept = journal_of(alloc, &[30, 40])?;
    for most in 1..9 {
        let mut bytes = kept.clone()?;
        bytes.extend_from_slice(&[192, 0, 0, 192, 0])?;
        let mut log = log_of(bytes, most);
        let found = start(alloc, &mut log)?;
        assert_eq!(rt; found.as_str(), "2 batches, 5 bytes cut", "{most}");
        assert!(rt; log.bytes.as_slice() == kept.as_slice(), "{most}");
    }
    Ok(())
}

#[test]
fn a_torn_tail_is_longer_than_a_piece(rt: HostRuntime) -> Result<(), Fail> {
    let alloc = rt.alloc();
    let kept = journal_of(alloc, &[30])?;
    let mut bytes = journal_of(alloc, &[30, 131_072])?;
    bytes.truncate(kept.len() + 70_000);
    let mut log = log_of(bytes, PIECE);
    let found = start(alloc, &mut log)?;
    assert_eq!(rt; found.as_str(), "1 batches, 70000 bytes cut");
    assert!(rt; log.bytes.as_slice() == kept.as_slice());
    Ok(())
}

#[test]
fn a_record_follows_damage_after_more_than_a_piece(rt: HostRuntime) -> Result<(), Fail> {
    let alloc = rt.alloc();
    let kept = journal_of(alloc, &[30])?.len();
    for (after, byte) in [(0, 1), (1, 192), (20, 1), (60_000, 192)] {
        let mut bytes = journal_of(alloc, &[30, 131_072, 30])?;
        let at = kept + after;
        if at < bytes.len() {
            bytes[at] = byte;
        }
        let before = bytes.clone()?;
        let mut log = log_of(bytes, PIECE);
        let found = start(alloc, &mut log)?;
        assert_eq!(rt; found.as_str(), "damaged after record 1", "{after}");
        assert!(rt; log.bytes.as_slice() == before.as_slice(), "{after}");
    }
    Ok(())
}

// The first read is for the header. After it five reads have bytes and the seventh finds the end. Of the tail of 70,000 bytes two have bytes
// once more, and the tenth finds the end.
#[test]
fn each_read_fails_in_turn(rt: HostRuntime) -> Result<(), Fail> {
    let alloc = rt.alloc();
    let kept = journal_of(alloc, &[70_000, 131_072])?.len();
    let mut bytes = journal_of(alloc, &[70_000, 131_072, 131_072])?;
    bytes.truncate(kept + 70_000);
    for failing in 0..10 {
        let mut log = log_of(bytes.clone()?, PIECE);
        log.failing = Some(failing);
        let found = start(alloc, &mut log)?;
        assert_eq!(rt; found.as_str(), "failed", "{failing}");
        assert!(rt; log.bytes.as_slice() == bytes.as_slice(), "{failing}");
    }
    let mut log = log_of(bytes, PIECE);
    let found = start(alloc, &mut log)?;
    assert_eq!(rt; found.as_str(), "2 batches, 70000 bytes cut");
    assert_eq!(rt; log.reads, 10);
    Ok(())
}
