// The part of a journal that a compaction wrote with its header, damaged and cut.

use crate::compacted::{LEFT, MORE};
use crate::maps::two_layers;
use crate::starts::{FINGERPRINT, compacted};
use crate::written::journal_of;
use journalfile::{RecoverFault, Recovered, read_name, recover};
use std::alloc::{AllocError, Global};
use std::test::Fail;
use test_logs::Tape;

// How a start on some bytes ends: how many batches it finds and how many bytes it cuts off, or after which record it finds damage.
fn ended(alloc: Global, bytes: &[u8]) -> Result<String, AllocError> {
    let mut tape = Tape::new(alloc, bytes.to_vec(alloc)?, 9_000);
    let Ok(name) = read_name(alloc, &FINGERPRINT, &mut tape) else {
        return String::from_str(alloc, "the header is refused");
    };
    let mut machine = two_layers(alloc, name.skipped())?;
    match recover(alloc, &name, &mut tape, &mut machine) {
        Ok(Recovered { count, cut, .. }) => format!(in alloc; "{count} batches, {cut} bytes cut"),
        Err(RecoverFault::Damaged(count)) if tape.bytes() == bytes => {
            format!(in alloc; "damaged after record {count}")
        }
        Err(_) => String::from_str(alloc, "another fault"),
    }
}

// The offset at which the header ends, and those at which the four records end that were written with it, by another program.
const HEADER: usize = 98;

const ENDS: [usize; 4] = [176, 226, 302, 350];

// How many of them end at an offset or before it.
fn whole_before(at: usize) -> usize {
    ENDS.iter().filter(|end| **end <= at).count()
}

// What is left of some batches, and those that follow.
fn journal(alloc: Global) -> Result<Vec<u8>, AllocError> {
    let text = format!(in alloc; "{LEFT}\n{MORE}")?;
    journal_of(alloc, &compacted(4, 4), text.as_str())
}

#[test]
fn each_changed_byte_of_the_written_part_is_refused(rt: HostRuntime) -> Result<(), Fail> {
    let alloc = rt.alloc();
    let whole = journal(alloc)?;
    for length in [ENDS[3], whole.len()] {
        for at in HEADER..ENDS[3] {
            let mut bytes = whole.clone()?;
            bytes.truncate(length);
            if at < bytes.len() {
                bytes[at] = if bytes[at] == 1 { 2 } else { 1 };
            }
            let count = whole_before(at);
            let expected = format!(in alloc; "damaged after record {count}")?;
            assert_eq!(rt;
                ended(alloc, &bytes)?.as_str(),
                expected.as_str(),
                "byte {at} of {length}"
            );
        }
    }
    Ok(())
}

#[test]
fn a_written_part_that_is_cut_is_refused(rt: HostRuntime) -> Result<(), Fail> {
    let alloc = rt.alloc();
    let whole = journal(alloc)?;
    for end in HEADER..ENDS[3] {
        let count = whole_before(end);
        let expected = format!(in alloc; "damaged after record {count}")?;
        let found = ended(alloc, whole.get(..end).unwrap_or(&whole))?;
        assert_eq!(rt; found.as_str(), expected.as_str(), "{end} bytes");
    }
    Ok(())
}

// The first record that follows has 47 bytes.
#[test]
fn what_follows_the_written_part_is_cut_off(rt: HostRuntime) -> Result<(), Fail> {
    let alloc = rt.alloc();
    let whole = journal(alloc)?;
    for cut in 0..47 {
        let found = ended(alloc, whole.get(..ENDS[3] + cut).unwrap_or(&whole))?;
        let expected = format!(in alloc; "4 batches, {cut} bytes cut")?;
        assert_eq!(rt; found.as_str(), expected.as_str());
    }
    for at in ENDS[3]..ENDS[3] + 47 {
        let mut bytes = whole.clone()?;
        bytes.truncate(ENDS[3] + 47);
        if at < bytes.len() {
            bytes[at] = if bytes[at] == 1 { 2 } else { 1 };
        }
        assert_eq!(rt;
            ended(alloc, &bytes)?.as_str(),
            "4 batches, 47 bytes cut",
            "byte {at}"
        );
    }
    Ok(())
}

#[test]
fn each_batch_that_was_written_is_there(rt: HostRuntime) -> Result<(), Fail> {
    let alloc = rt.alloc();
    for (written, expected) in [
        (0, "4 batches, 0 bytes cut"),
        (3, "4 batches, 0 bytes cut"),
        (4, "4 batches, 0 bytes cut"),
        (5, "damaged after record 4"),
        (u64::MAX, "damaged after record 4"),
    ] {
        let bytes = journal_of(alloc, &compacted(4, written), LEFT)?;
        assert_eq!(rt; ended(alloc, &bytes)?.as_str(), expected, "{written}");
    }
    Ok(())
}
