// Several batches that an administrator accepts with a journal on a tape.

ghost use Rattle.std.specs.Prelude.{◌≡◌, ℕ, List};

use crate::maps::machine;
use crate::records::recorded_batches;
use history::Blank;
use journal::{JournalName, push_header};
use journalfile::{Journal, Recovered, recover};
use keepers::Keeps;
use mapmachine::Machine;
use mapshare::{Accepted, KeepFailed, Retried, Sharing, open};
use std::alloc::{AllocError, Global};
use std::marker::Brand;
use std::sync::Wait;
use test_logs::Tape;
use test_tables::{TableFault, check_rows};

const JOURNAL: JournalName = JournalName {
    fingerprint: [7; 32],
    compaction: None,
};

// Batches that are accepted, as far as they are, and what keeps them.
#[derive(Drop)]
struct Submission<K> {
    keeper: K,
    batches: Vec<Vec<u8>>,
}

// The result of accepting batches, and the sequence after publishing those that are pending, or 0 where none is.
#[derive(Clone, Copy)]
struct Outcome {
    accepted: Result<Accepted, KeepFailed>,
    sequence: u64,
}

// Shares a machine, accepts batches, and publishes those that are pending. Without an outcome the machine wasn't shared.
fn accept<S: Sharing, K: Keeps + Drop, R: AllocGlobal + Wait>(
    rt: &R,
    blank: Blank,
    machine: &Machine,
    submission: Submission<K>,
) -> Option<(K, Outcome)>
    requires history { blank.seen.book ≡ S.book }
    requires opening { machine.now ≡ S.opening }
    requires ready { (kept : List (List ℕ)) × K.keeps submission.keeper kept }
{
    let Submission {
        mut keeper,
        batches,
    } = submission;
    let (mut admin, _readers) = open::<S, K, R>(rt, blank, machine, 1).ok()?;
    let accepted = admin.accept_kept(&mut keeper, batches.as_slice());
    let (admin, retried) = admin.retry(rt);
    admin.close(rt);
    let sequence = match retried {
        Retried::Published(receipt) => receipt.sequence(),
        Retried::Idle | Retried::Held => 0,
    };
    Some((keeper, Outcome { accepted, sequence }))
}

// How many were accepted, and why no more, in words.
fn text_of(alloc: Global, accepted: Result<Accepted, KeepFailed>) -> Result<String, AllocError> {
    let Ok(Accepted { count, refused }) = accepted else {
        return String::from_str(alloc, "failed");
    };
    match refused {
        None => format!(in alloc; "{count} accepted"),
        Some(error) => format!(in alloc; "{count} accepted, {error}"),
    }
}

// How many records there are in a journal.
fn records_in(alloc: Global, bytes: &[u8]) -> usize {
    match recorded_batches(alloc, &JOURNAL, bytes) {
        Ok(batches) => batches.len(),
        Err(_) => usize::MAX,
    }
}

// What becomes of batches that are accepted with a journal, which takes so many bytes.
fn result_of<R: AllocGlobal + Wait>(
    rt: &R,
    room: usize,
    batches: Vec<Vec<u8>>,
) -> Result<String, AllocError> {
    let alloc = rt.alloc();
    let mut bytes = Vec::new(alloc);
    push_header(&mut bytes, &JOURNAL)?;
    let mut log = Tape::new(alloc, bytes, room);
    let mut machine = machine(alloc, "a")?;
    let Ok(Recovered { count, length, .. }) = recover(alloc, &JOURNAL, &mut log, &mut machine)
    else {
        return String::from_str(alloc, "not opened");
    };
    let before = log.syncs();
    let keeper = Journal {
        alloc,
        log,
        name: JOURNAL,
        count,
        length: length as u64,
    };
    let submission = Submission { keeper, batches };
    let Some((journal, outcome)) = accept::<Brand, Journal<Tape>, R>(
        rt,
        Blank::new(),
        &machine,
        submission,
    ) else {
        return String::from_str(alloc, "not shared");
    };
    let text = text_of(alloc, outcome.accepted)?;
    let sequence = outcome.sequence;
    let syncs = journal.log.syncs().wrapping_sub(before);
    let records = records_in(alloc, journal.log.bytes());
    format!(in alloc; "{text}; {syncs} syncs, {records} records; sequence {sequence}")
}

// The batches of a row, between slashes. LF is written `~`.
fn batches_of(alloc: Global, row: &str) -> Result<Vec<Vec<u8>>, AllocError> {
    let mut batches = Vec::new(alloc);
    for text in row.split('/') {
        let text = text.replace(alloc, '~', "\n")?;
        batches.push(Vec::from_slice(alloc, text.as_str().as_bytes())?)?;
    }
    Ok(batches)
}

// What becomes of batches, and the batches.
const ACCEPTED: &str = "\
3 accepted; 1 syncs, 3 records; sequence 3|OFF a~//ON a~
1 accepted, command 1: no layer has this name; 1 syncs, 1 records; sequence 1|OFF a~/ON zz~/ON a~
2 accepted, command 2: no layer has this name; 1 syncs, 2 records; sequence 2|OFF a~//ON a~ON zz~
0 accepted, command 1: no layer has this name; 0 syncs, 0 records; sequence 0|ON zz~/OFF a~";

#[test]
fn those_before_the_first_that_is_refused_are_kept_at_once(
    rt: HostRuntime,
) -> Result<(), TableFault> {
    check_rows(rt.alloc(), ACCEPTED, '|', 4, |alloc, row| {
        result_of(&rt, 1_000, batches_of(alloc, row)?)
    })
}

// The same, where the journal takes the bytes of the first record and some more.
const STOPPED: &str = "failed; 0 syncs, 1 records; sequence 0|OFF a~//ON a~";

#[test]
fn nothing_is_published_where_the_journal_fails(rt: HostRuntime) -> Result<(), TableFault> {
    check_rows(rt.alloc(), STOPPED, '|', 1, |alloc, row| {
        result_of(&rt, 60, batches_of(alloc, row)?)
    })
}
