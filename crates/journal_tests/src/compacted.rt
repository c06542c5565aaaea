// Journals that are compacted, worked by hand.

use crate::maps::shown;
use crate::starts::{Opened, PLAIN, compacted, found, keep, start};
use crate::written::{batches_of, journal_of};
use std::alloc::{AllocError, Global};
use std::test::Fail;
use test_logs::Tape;

/// Eight batches of two layers, the last of which is empty. The CLEARs undo the values a, g, b and e, the last ON of p its OFF, and the
/// last OFF of q the others.
pub const BATCHES: &str = "\
APPEND 16 p~x,y,n~0.5,0.5,a~
APPEND 16 q~x,y,n~0.5,0.5,b~OFF p~
APPEND 16 p~x,y,n~0.5,0.5,g~CLEAR p~APPEND 16 p~x,y,n~0.5,0.5,c~
OFF q~APPEND 16 q~x,y,n~0.5,0.5,e~
ON q~CLEAR q~
APPEND 16 q~x,y,n~0.5,0.5,f~ON p~
OFF q~
";

/// What is left of them: four batches.
pub const LEFT: &str = "\
CLEAR p~APPEND 16 p~x,y,n~0.5,0.5,c~
CLEAR q~
APPEND 16 q~x,y,n~0.5,0.5,f~ON p~
OFF q~";

/// Batches that follow.
pub const MORE: &str = "\
ON q~
APPEND 16 p~x,y,n~0.5,0.5,h~";

// What is left of those and these: the ON of q undoes its OFF.
const LEFT_AGAIN: &str = "\
CLEAR p~APPEND 16 p~x,y,n~0.5,0.5,c~
CLEAR q~
APPEND 16 q~x,y,n~0.5,0.5,f~ON p~
ON q~
APPEND 16 p~x,y,n~0.5,0.5,h~";

// Batches of which none undoes another.
const NONE_UNDONE: &str = "\
APPEND 16 p~x,y,n~0.5,0.5,a~
CLEAR q~OFF q~
APPEND 16 q~x,y,n~0.5,0.5,b~APPEND 16 p~x,y,n~0.5,0.5,c~";

// Batches of which none is left out, but commands of each: the ON of p undoes its OFF, the CLEAR of p the value a, and the OFF of q its ON.
const WITHIN: &str = "\
OFF p~CLEAR q~ON p~
APPEND 16 p~x,y,n~0.5,0.5,a~CLEAR p~APPEND 16 p~x,y,n~0.5,0.5,b~
ON q~OFF q~";

const LEFT_WITHIN: &str = "\
CLEAR q~ON p~
CLEAR p~APPEND 16 p~x,y,n~0.5,0.5,b~
OFF q~";

// The journal on a tape after it was compacted, and whether it was.
fn compact(alloc: Global, bytes: Vec<u8>) -> Result<Option<(Tape, bool)>, AllocError> {
    let Some(Opened { mut journal, .. }) = start(alloc, Tape::new(alloc, bytes, 1_000))? else {
        return Ok(None);
    };
    let is_compacted = matches!(journal.compact(), Ok(None));
    Ok(Some((journal.log, is_compacted)))
}

// Whether a journal that is compacted has these bytes then, each of which a crash leaves.
fn is_compacted_to(alloc: Global, bytes: Vec<u8>, left: &[u8]) -> Result<bool, AllocError> {
    let Some((tape, is_compacted)) = compact(alloc, bytes)? else {
        return Ok(false);
    };
    Ok(is_compacted && tape.bytes() == left && tape.synced() == left.len())
}

#[test]
fn undone_commands_are_left_out(rt: HostRuntime) -> Result<(), Fail> {
    let alloc = rt.alloc();
    let all = journal_of(alloc, &PLAIN, BATCHES)?;
    let left = journal_of(alloc, &compacted(4, 4), LEFT)?;
    assert_eq!(rt;
        found(alloc, &all)?.as_str(),
        "8 there, 0 left out: p 'c', q off, sequence 8"
    );
    assert_eq!(rt;
        found(alloc, &left)?.as_str(),
        "4 there, 4 left out: p 'c', q off, sequence 8"
    );
    assert!(rt; left.starts_with(b"KESMOCH JOURNAL 3\n"));
    assert!(rt; is_compacted_to(alloc, all, &left)?);
    Ok(())
}

#[test]
fn batches_follow_and_are_compacted_again(rt: HostRuntime) -> Result<(), Fail> {
    let alloc = rt.alloc();
    let tape = Tape::new(alloc, journal_of(alloc, &compacted(4, 4), LEFT)?, 1_000);
    let more = batches_of(alloc, MORE)?;
    let kept = keep(alloc, tape, &more)?.ok_or(AllocError)?;
    assert_eq!(rt; kept.notes.as_str(), " 5+4 6+4");
    let all = kept.journal.log.bytes().to_vec(alloc)?;
    assert_eq!(rt;
        found(alloc, &all)?.as_str(),
        "6 there, 4 left out: p 'c' 'h', q 'f', sequence 10"
    );
    let left = journal_of(alloc, &compacted(5, 5), LEFT_AGAIN)?;
    assert!(rt; is_compacted_to(alloc, all, &left)?);
    assert_eq!(rt;
        found(alloc, &left)?.as_str(),
        "5 there, 5 left out: p 'c' 'h', q 'f', sequence 10"
    );
    assert!(rt; is_compacted_to(alloc, left.clone()?, &left)?);
    Ok(())
}

#[test]
fn a_journal_of_which_nothing_is_left_out_gets_the_new_header(rt: HostRuntime) -> Result<(), Fail> {
    let alloc = rt.alloc();
    let all = journal_of(alloc, &PLAIN, NONE_UNDONE)?;
    let left = journal_of(alloc, &compacted(0, 3), NONE_UNDONE)?;
    assert!(rt; is_compacted_to(alloc, all, &left)?);
    assert_eq!(rt;
        found(alloc, &left)?.as_str(),
        "3 there, 0 left out: p 'a' 'c', q off, sequence 3"
    );
    Ok(())
}

#[test]
fn commands_within_batches_are_left_out(rt: HostRuntime) -> Result<(), Fail> {
    let alloc = rt.alloc();
    let all = journal_of(alloc, &PLAIN, WITHIN)?;
    let left = journal_of(alloc, &compacted(0, 3), LEFT_WITHIN)?;
    assert!(rt; is_compacted_to(alloc, all, &left)?);
    assert_eq!(rt;
        found(alloc, &left)?.as_str(),
        "3 there, 0 left out: p 'b', q off, sequence 3"
    );
    Ok(())
}

#[test]
fn empty_batches_are_counted_alone(rt: HostRuntime) -> Result<(), Fail> {
    let alloc = rt.alloc();
    let (tape, is_compacted) = compact(alloc, journal_of(alloc, &PLAIN, "\n\n")?)?.ok_or(
        AllocError,
    )?;
    assert!(rt; is_compacted);
    assert_eq!(rt; tape.bytes().len(), 98);
    assert_eq!(rt;
        found(alloc, tape.bytes())?.as_str(),
        "0 there, 3 left out: p, q, sequence 3"
    );
    Ok(())
}

#[test]
fn the_journal_knows_its_name_and_length(rt: HostRuntime) -> Result<(), Fail> {
    let alloc = rt.alloc();
    let tape = Tape::new(alloc, journal_of(alloc, &PLAIN, BATCHES)?, 1_000);
    let Opened {
        mut journal,
        machine,
    } = start(alloc, tape)?.ok_or(AllocError)?;
    assert_eq!(rt; journal.length, 599);
    assert!(rt; matches!(journal.compact(), Ok(None)));
    assert!(rt; journal.name == compacted(4, 4));
    assert_eq!(rt; journal.count, 4);
    assert_eq!(rt; journal.length, 350);
    assert_eq!(rt;
        shown(alloc, &machine)?.as_str(),
        "p 'c', q off, sequence 8"
    );
    Ok(())
}
