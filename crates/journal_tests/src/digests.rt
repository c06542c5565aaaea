// Bytes that were worked by another program: Python's `hashlib` gave the digests.

use crate::starts::{PLAIN, compacted, found, keep};
use crate::written::{batches_of, journal_of};
use journal::{
    Compaction, HeaderFault, JournalName, UsedFile, after_header, decode, fingerprint_of,
    is_record, push_header, push_record,
};
use std::alloc::AllocError;
use std::test::Fail;
use test_logs::Tape;

// SHA-256 of 8, `MAP LF END LF`, 9, `roads.csv`, a 1, 8, `x,y LF 1,2 LF`, 5, `a.bdf` and a 0, each number of a length in 8 bytes.
const FINGERPRINT: [u8; 32] = [
    88, 63, 223, 33, 106, 14, 29, 3, 58, 131, 172, 100, 1, 90, 75, 65, 226, 131, 242, 87, 181, 152,
    167, 3, 235, 191, 116, 190, 209, 17, 108, 153,
];

// The name of a journal that was never compacted, of the map whose fingerprint is 32 times this byte.
fn name(byte: u8) -> JournalName {
    JournalName {
        fingerprint: [byte; 32],
        compaction: None,
    }
}

// Record 258 of the map whose fingerprint is 32 bytes of 7: the batch is an END, an `A` and an ESC.
const RECORD: [u8; 47] = [
    192, 0, 0, 0, 0, 0, 0, 1, 2, 219, 220, 65, 219, 221, 147, 100, 204, 69, 78, 180, 61, 33, 89,
    217, 39, 188, 55, 208, 218, 2, 250, 50, 130, 223, 109, 94, 203, 110, 42, 108, 116, 12, 89, 142,
    246, 188, 192,
];

// The header of that map's journal of which 4 batches were left out, and 2 written with the header.
const COMPACTED_HEADER: [u8; 98] = [
    75, 69, 83, 77, 79, 67, 72, 32, 74, 79, 85, 82, 78, 65, 76, 32, 51, 10, 0, 0, 0, 0, 0, 0, 0, 4,
    0, 0, 0, 0, 0, 0, 0, 2, 7, 7, 7, 7, 7, 7, 7, 7, 7, 7, 7, 7, 7, 7, 7, 7, 7, 7, 7, 7, 7, 7, 7, 7,
    7, 7, 7, 7, 7, 7, 7, 7, 143, 31, 88, 22, 5, 3, 108, 88, 92, 211, 27, 147, 143, 131, 207, 162,
    237, 253, 93, 134, 170, 139, 118, 18, 178, 249, 217, 117, 90, 84, 212, 139,
];

// Record 2 of it: the batch is `OFF q` and an LF.
const COMPACTED_RECORD: [u8; 48] = [
    192, 0, 0, 0, 0, 0, 0, 0, 2, 79, 70, 70, 32, 113, 10, 217, 45, 114, 35, 36, 114, 42, 248, 254,
    44, 107, 75, 198, 50, 168, 169, 149, 147, 74, 106, 254, 172, 124, 242, 19, 254, 16, 244, 60,
    237, 77, 10, 192,
];

// Its journal of two batches that was never compacted: `OFF q` and an LF, and an APPEND of the point 0.5, 0.5 with the value a to p.
const JOURNAL: [u8; 168] = [
    75, 69, 83, 77, 79, 67, 72, 32, 74, 79, 85, 82, 78, 65, 76, 32, 49, 10, 7, 7, 7, 7, 7, 7, 7, 7,
    7, 7, 7, 7, 7, 7, 7, 7, 7, 7, 7, 7, 7, 7, 7, 7, 7, 7, 7, 7, 7, 7, 7, 7, 192, 0, 0, 0, 0, 0, 0,
    0, 1, 79, 70, 70, 32, 113, 10, 27, 186, 243, 191, 114, 239, 193, 39, 120, 52, 139, 108, 75,
    191, 108, 223, 214, 19, 216, 89, 201, 191, 163, 199, 15, 73, 154, 254, 204, 237, 140, 212, 192,
    192, 0, 0, 0, 0, 0, 0, 0, 2, 65, 80, 80, 69, 78, 68, 32, 49, 54, 32, 112, 10, 120, 44, 121, 44,
    110, 10, 48, 46, 53, 44, 48, 46, 53, 44, 97, 10, 176, 179, 82, 77, 203, 162, 70, 244, 37, 140,
    55, 18, 187, 240, 41, 244, 72, 163, 167, 246, 7, 57, 137, 19, 9, 23, 72, 30, 236, 29, 153, 100,
    192,
];

#[test]
fn the_fingerprint_is_of_lengths_and_bytes(rt: HostRuntime) {
    let files = [
        UsedFile {
            name: b"roads.csv",
            content: Some(b"x,y\n1,2\n"),
        },
        UsedFile {
            name: b"a.bdf",
            content: None,
        },
    ];
    let found = fingerprint_of(b"MAP\nEND\n", &files);
    assert_eq!(rt; found, FINGERPRINT);
}

#[test]
fn a_record_is_spelled_and_read(rt: HostRuntime) -> Result<(), Fail> {
    let alloc = rt.alloc();
    let mut record = Vec::new(alloc);
    push_record(&mut record, &name(7), 258, &[192, 65, 219])?;
    assert!(rt; record.as_slice() == RECORD.as_slice());
    let frame = &RECORD[1..46];
    let found = decode(alloc, &name(7), 258, frame)?;
    let is_found = found.is_some_and(|batch| batch.as_slice() == [192, 65, 219].as_slice());
    assert!(rt; is_found);
    assert!(rt; decode(alloc, &name(7), 257, frame)?.is_none());
    assert!(rt; decode(alloc, &name(8), 258, frame)?.is_none());
    assert!(rt; is_record(alloc, &name(7), frame)?);
    assert!(rt; !is_record(alloc, &name(8), frame)?);
    Ok(())
}

#[test]
fn a_record_of_a_compacted_journal_is_spelled_and_read(rt: HostRuntime) -> Result<(), Fail> {
    let alloc = rt.alloc();
    let mut compacted = compacted(4, 2);
    let mut record = Vec::new(alloc);
    push_record(&mut record, &compacted, 2, b"OFF q\n")?;
    assert!(rt; record.as_slice() == COMPACTED_RECORD.as_slice());
    let frame = &COMPACTED_RECORD[1..47];
    let found = decode(alloc, &compacted, 2, frame)?;
    let is_found = found.is_some_and(|batch| batch.as_slice() == b"OFF q\n".as_slice());
    assert!(rt; is_found);
    assert!(rt; decode(alloc, &name(7), 2, frame)?.is_none());
    assert!(rt; decode(alloc, &compacted, 1, frame)?.is_none());
    for (skipped, written) in [(5, 2), (4, 3), (2, 4)] {
        compacted.compaction = Some(Compaction { skipped, written });
        assert!(rt; decode(alloc, &compacted, 2, frame)?.is_none());
    }
    Ok(())
}

#[test]
fn a_header_of_a_compacted_journal_is_spelled_and_read(rt: HostRuntime) -> Result<(), Fail> {
    let alloc = rt.alloc();
    let mut header = Vec::new(alloc);
    push_header(&mut header, &compacted(4, 2))?;
    assert!(rt; header.as_slice() == COMPACTED_HEADER.as_slice());
    header.push(192)?;
    let found = after_header(&[7; 32], &header);
    let is_found = found.is_ok_and(|(name, rest)| name == compacted(4, 2)
        && rest == [192].as_slice());
    assert!(rt; is_found);
    Ok(())
}

#[test]
fn a_journal_that_was_never_compacted_is_as_before(rt: HostRuntime) -> Result<(), Fail> {
    let alloc = rt.alloc();
    let text = "OFF q~\nAPPEND 16 p~x,y,n~0.5,0.5,a~";
    let written = journal_of(alloc, &PLAIN, text)?;
    assert!(rt; written.as_slice() == JOURNAL.as_slice());
    let mut header = Vec::new(alloc);
    push_header(&mut header, &PLAIN)?;
    let kept = keep(
        alloc,
        Tape::new(alloc, header, 1_000),
        &batches_of(alloc, text)?,
    )?;
    let kept = kept.ok_or(AllocError)?;
    assert!(rt; kept.journal.log.bytes() == JOURNAL.as_slice());
    assert_eq!(rt;
        found(alloc, &JOURNAL)?.as_str(),
        "2 there, 0 left out: p 'a', q off, sequence 2"
    );
    Ok(())
}

#[test]
fn messages_of_faults(rt: HostRuntime) -> Result<(), Fail> {
    let alloc = rt.alloc();
    for (fault, expected) in [
        (HeaderFault::NotAJournal, "the file is not a journal"),
        (
            HeaderFault::EarlierForm,
            "the journal is of an earlier form (KESMOCH JOURNAL 2), which this program doesn't read",
        ),
        (HeaderFault::Damaged, "the header of the journal is damaged"),
        (HeaderFault::OtherMap, "the journal is of another map"),
    ] {
        let found = format!(in alloc; "{fault}")?;
        assert_eq!(rt; found.as_str(), expected);
    }
    Ok(())
}
