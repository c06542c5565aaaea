// Headers of journals, byte by byte and bit by bit.

use crate::maps::two_layers;
use crate::starts::{FINGERPRINT, PLAIN, compacted, found};
use crate::written::journal_of;
use journal::{Compaction, HeaderFault, JournalName};
use journalfile::{RecoverFault, read_name, recover};
use std::alloc::{AllocError, Global};
use std::test::Fail;
use test_logs::Tape;

const NO_JOURNAL: &str = "the file is not a journal";

const EARLIER: &str =
    "the journal is of an earlier form (KESMOCH JOURNAL 2), which this program doesn't read";

const DAMAGED: &str = "the header of the journal is damaged";

const OTHER_MAP: &str = "the journal is of another map";

// The name of the map's journal of which 4 batches were left out and 2 written with the header, and its digest, by Python's `hashlib`.
const SEALED: [u8; 80] = [
    0, 0, 0, 0, 0, 0, 0, 4, 0, 0, 0, 0, 0, 0, 0, 2, 7, 7, 7, 7, 7, 7, 7, 7, 7, 7, 7, 7, 7, 7, 7, 7,
    7, 7, 7, 7, 7, 7, 7, 7, 7, 7, 7, 7, 7, 7, 7, 7, 143, 31, 88, 22, 5, 3, 108, 88, 92, 211, 27,
    147, 143, 131, 207, 162, 237, 253, 93, 134, 170, 139, 118, 18, 178, 249, 217, 117, 90, 84, 212,
    139,
];

// The same of 258 batches and of all that have a number.
const SEALED_GREAT: [u8; 80] = [
    0, 0, 0, 0, 0, 0, 1, 2, 255, 255, 255, 255, 255, 255, 255, 255, 7, 7, 7, 7, 7, 7, 7, 7, 7, 7,
    7, 7, 7, 7, 7, 7, 7, 7, 7, 7, 7, 7, 7, 7, 7, 7, 7, 7, 7, 7, 7, 7, 38, 155, 168, 19, 150, 76,
    217, 7, 202, 76, 172, 230, 42, 18, 223, 234, 126, 184, 27, 88, 157, 184, 103, 78, 7, 1, 33,
    137, 32, 158, 75, 51,
];

// The same of none and none.
const SEALED_ZEROES: [u8; 80] = [
    0, 0, 0, 0, 0, 0, 0, 0, 0, 0, 0, 0, 0, 0, 0, 0, 7, 7, 7, 7, 7, 7, 7, 7, 7, 7, 7, 7, 7, 7, 7, 7,
    7, 7, 7, 7, 7, 7, 7, 7, 7, 7, 7, 7, 7, 7, 7, 7, 113, 247, 203, 78, 49, 143, 180, 7, 97, 214,
    215, 29, 120, 237, 18, 219, 248, 17, 128, 176, 6, 192, 199, 0, 249, 203, 237, 192, 206, 173,
    220, 142,
];

// The name of the journal of the map whose fingerprint is 32 times 8, with 4 and 2, and its digest.
const SEALED_OTHER: [u8; 80] = [
    0, 0, 0, 0, 0, 0, 0, 4, 0, 0, 0, 0, 0, 0, 0, 2, 8, 8, 8, 8, 8, 8, 8, 8, 8, 8, 8, 8, 8, 8, 8, 8,
    8, 8, 8, 8, 8, 8, 8, 8, 8, 8, 8, 8, 8, 8, 8, 8, 54, 203, 77, 149, 254, 3, 25, 59, 98, 206, 248,
    185, 156, 66, 248, 224, 72, 28, 85, 153, 71, 104, 223, 246, 87, 150, 219, 126, 193, 144, 249,
    101,
];

// The numbers of the compaction in the header of some bytes, if there is one, or the fault of the header.
fn header_in(alloc: Global, bytes: &[u8]) -> Result<String, AllocError> {
    let mut tape = Tape::new(alloc, bytes.to_vec(alloc)?, 9_000);
    let read = read_name(alloc, &FINGERPRINT, &mut tape);
    if tape.bytes() != bytes {
        return String::from_str(alloc, "the file was changed");
    }
    match read {
        Ok(name) => match name.compaction {
            Some(Compaction { skipped, written }) => format!(in alloc; "{skipped} and {written}"),
            None => String::from_str(alloc, "none"),
        },
        Err(RecoverFault::Header(fault)) => format!(in alloc; "{fault}"),
        Err(_) => String::from_str(alloc, "another fault"),
    }
}

// What a header says: its version, and the bytes after that.
const HEADERS: [(u8, &[u8], &str); 13] = [
    (b'1', &[7; 32], "none"),
    (b'1', &[7; 33], "none"),
    (b'3', &SEALED, "4 and 2"),
    (b'3', &SEALED_GREAT, "258 and 18446744073709551615"),
    (b'3', &SEALED_ZEROES, "0 and 0"),
    (b'1', &[8; 32], OTHER_MAP),
    (b'1', &[7; 31], OTHER_MAP),
    (b'3', &SEALED_OTHER, OTHER_MAP),
    (b'3', &[7; 80], DAMAGED),
    (b'2', &[7; 40], EARLIER),
    (b'2', &[], EARLIER),
    (b'0', &[7; 32], NO_JOURNAL),
    (b'4', &SEALED, NO_JOURNAL),
];

// A header of this version, and the bytes after that.
fn header(alloc: Global, version: u8, after: &[u8]) -> Result<Vec<u8>, AllocError> {
    let mut bytes = Vec::from_slice(alloc, b"KESMOCH JOURNAL ")?;
    bytes.push(version)?;
    bytes.push(b'\n')?;
    bytes.extend_from_slice(after)?;
    Ok(bytes)
}

#[test]
fn a_header_has_the_numbers_of_a_compaction(rt: HostRuntime) -> Result<(), Fail> {
    let alloc = rt.alloc();
    for (at, (version, after, expected)) in HEADERS.iter().enumerate() {
        let bytes = header(alloc, *version, after)?;
        let found = header_in(alloc, &bytes)?;
        assert_eq!(rt; found.as_str(), *expected, "row {at}");
    }
    Ok(())
}

// The fault of a header in which one bit of this byte is changed, or which is cut before the byte after it. Of the version 3 one bit makes
// a 1, whose fingerprint would begin with the numbers, and another a 2.
fn fault_of(is_compacted: bool, at: usize, mask: u8) -> &'static str {
    if at == 16 && mask == 1 && is_compacted {
        return EARLIER;
    }
    if at == 16 && mask == 2 {
        return if is_compacted { OTHER_MAP } else { DAMAGED };
    }
    if at < 18 {
        return NO_JOURNAL;
    }
    if is_compacted { DAMAGED } else { OTHER_MAP }
}

// The masks of single bits.
const MASKS: [u8; 8] = [1, 2, 4, 8, 16, 32, 64, 128];

// Both forms of headers, their lengths, and whether they are those of compacted journals.
const FORMS: [(JournalName, usize, bool); 2] = [
    (PLAIN, 50, false),
    (
        JournalName {
            fingerprint: FINGERPRINT,
            compaction: Some(Compaction {
                skipped: 4,
                written: 2,
            }),
        },
        98,
        true,
    ),
];

#[test]
fn each_changed_bit_of_a_header_is_refused(rt: HostRuntime) -> Result<(), Fail> {
    let alloc = rt.alloc();
    for (name, length, is_compacted) in FORMS.iter() {
        let whole = journal_of(alloc, name, "OFF q~\nON q~")?;
        for at in 0..*length {
            for mask in MASKS {
                let mut bytes = whole.clone()?;
                if at < bytes.len() {
                    bytes[at] ^= mask;
                }
                let found = header_in(alloc, &bytes)?;
                let expected = fault_of(*is_compacted, at, mask);
                assert_eq!(rt; found.as_str(), expected, "byte {at}, mask {mask}");
            }
        }
    }
    Ok(())
}

#[test]
fn a_header_that_is_cut_is_refused(rt: HostRuntime) -> Result<(), Fail> {
    let alloc = rt.alloc();
    for (name, length, is_compacted) in FORMS.iter() {
        let whole = journal_of(alloc, name, "OFF q~\nON q~")?;
        for end in 0..*length {
            let found = header_in(alloc, whole.get(..end).unwrap_or(&whole))?;
            let expected = if end == 17 {
                NO_JOURNAL
            } else {
                fault_of(*is_compacted, end, 0)
            };
            assert_eq!(rt; found.as_str(), expected, "{end} bytes");
        }
    }
    Ok(())
}

#[test]
fn records_follow_a_header_of_either_form(rt: HostRuntime) -> Result<(), Fail> {
    let alloc = rt.alloc();
    for (name, expected) in [
        (PLAIN, "2 there, 0 left out: p 'a', q off, sequence 2"),
        (
            compacted(3, 1),
            "2 there, 3 left out: p 'a', q off, sequence 5",
        ),
    ] {
        let bytes = journal_of(alloc, &name, "APPEND 16 p~x,y,n~0.5,0.5,a~\nOFF q~")?;
        assert_eq!(rt; found(alloc, &bytes)?.as_str(), expected);
    }
    Ok(())
}

#[test]
fn a_journal_is_opened_by_its_own_name_alone(rt: HostRuntime) -> Result<(), Fail> {
    let alloc = rt.alloc();
    for (name, other) in [
        (compacted(4, 1), compacted(3, 1)),
        (compacted(4, 1), compacted(4, 0)),
        (PLAIN, compacted(0, 0)),
        (compacted(0, 0), PLAIN),
    ] {
        let bytes = journal_of(alloc, &name, "OFF q~")?;
        let mut tape = Tape::new(alloc, bytes, 0);
        let mut machine = two_layers(alloc, other.skipped())?;
        let opened = recover(alloc, &other, &mut tape, &mut machine);
        let is_refused = matches!(opened, Err(RecoverFault::Header(HeaderFault::OtherMap)));
        assert!(rt; is_refused, "{name:?}, {other:?}");
    }
    Ok(())
}
