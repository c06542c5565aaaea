// Journals that are compacted where they are due as batches are kept. Lengths were worked by another program, from the rules of the format.

use crate::starts::{PLAIN, keep, keep_compacted};
use crate::written::{batches_of, journal_of};
use journal::push_header;
use journalfile::Checkpoint;
use std::alloc::{AllocError, Global};
use std::test::Fail;
use test_logs::Tape;

// A CLEAR undoes those before it. The journal has 50 bytes more with each, or 51.
const CLEARS: &str = "CLEAR p~\nCLEAR p~\nCLEAR p~\nCLEAR p~\nCLEAR p~\nCLEAR p~\nCLEAR p~";

// Nothing undoes these. The journal has 71 bytes more with the first, the fourth and the seventh of them, and 70 with the others.
const APPENDS: &str = "\
APPEND 16 p~x,y,n~0.5,0.5,a~
APPEND 16 p~x,y,n~0.5,0.5,b~
APPEND 16 p~x,y,n~0.5,0.5,c~
APPEND 16 p~x,y,n~0.5,0.5,d~
APPEND 16 p~x,y,n~0.5,0.5,e~
APPEND 16 p~x,y,n~0.5,0.5,f~
APPEND 16 p~x,y,n~0.5,0.5,g~";

// The journal of no batches.
fn empty(alloc: Global) -> Result<Tape, AllocError> {
    let mut bytes = Vec::new(alloc);
    push_header(&mut bytes, &PLAIN)?;
    Ok(Tape::new(alloc, bytes, 9_000))
}

// What is noted of a journal in which batches are kept, and which is compacted from so many bytes on.
fn notes_of(alloc: Global, least: u64, text: &str) -> Result<String, AllocError> {
    let checkpoint = Checkpoint { least, due: least };
    let kept = keep_compacted(alloc, empty(alloc)?, checkpoint, &batches_of(alloc, text)?)?;
    Ok(kept.ok_or(AllocError)?.notes)
}

#[test]
fn a_journal_is_compacted_where_it_is_due(rt: HostRuntime) -> Result<(), Fail> {
    let alloc = rt.alloc();
    // It has 200 bytes with the third.
    let notes = notes_of(alloc, 200, CLEARS)?;
    let expected = " 1+0<200 2+0<200 1+2<296 2+2<296 3+2<296 1+5<296 2+5<296";
    assert_eq!(rt; notes.as_str(), expected);
    let notes = notes_of(alloc, 201, CLEARS)?;
    let expected = " 1+0<201 2+0<201 3+0<201 1+3<298 2+3<298 3+3<298 1+6<296";
    assert_eq!(rt; notes.as_str(), expected);
    Ok(())
}

#[test]
fn one_of_which_little_is_undone_is_due_at_twice_its_length(rt: HostRuntime) -> Result<(), Fail> {
    let alloc = rt.alloc();
    // It has 191 bytes with the second, 238 once it is compacted, and 518 with the sixth.
    let notes = notes_of(alloc, 150, APPENDS)?;
    let expected = " 1+0<150 2+0<476 3+0<476 4+0<476 5+0<476 6+0<1036 7+0<1036";
    assert_eq!(rt; notes.as_str(), expected);
    Ok(())
}

#[test]
fn one_whose_place_no_other_takes_keeps_on(rt: HostRuntime) -> Result<(), Fail> {
    let alloc = rt.alloc();
    let checkpoint = Checkpoint {
        least: 200,
        due: 200,
    };
    let batches = batches_of(alloc, CLEARS)?;
    let tape = empty(alloc)?.fixed();
    let kept = keep_compacted(alloc, tape, checkpoint, &batches)?.ok_or(AllocError)?;
    // It has 200 bytes with the third, and 402 with the seventh.
    let expected = " 1+0<200 2+0<200 3+0<400 4+0<400 5+0<400 6+0<400 7+0<804";
    assert_eq!(rt; kept.notes.as_str(), expected);
    let all = journal_of(alloc, &PLAIN, CLEARS)?;
    assert!(rt; kept.is_kept && kept.journal.log.bytes() == all.as_slice());
    Ok(())
}

#[test]
fn without_a_checkpoint_a_journal_grows(rt: HostRuntime) -> Result<(), Fail> {
    let alloc = rt.alloc();
    let kept = keep(alloc, empty(alloc)?, &batches_of(alloc, CLEARS)?)?.ok_or(AllocError)?;
    assert_eq!(rt; kept.notes.as_str(), " 1+0 2+0 3+0 4+0 5+0 6+0 7+0");
    Ok(())
}

#[test]
fn the_least_length_stays(rt: HostRuntime) -> Result<(), Fail> {
    let alloc = rt.alloc();
    let tape = Tape::new(alloc, journal_of(alloc, &PLAIN, CLEARS)?, 9_000);
    let checkpoint = Checkpoint {
        least: 400,
        due: 450,
    };
    let batches = batches_of(alloc, "OFF q~")?;
    let kept = keep_compacted(alloc, tape, checkpoint, &batches)?.ok_or(AllocError)?;
    assert_eq!(rt; kept.notes.as_str(), " 2+6<400");
    Ok(())
}
