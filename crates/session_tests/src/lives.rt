//! A service with a journal, life after life: each begins with what a crash left of the one before.

use crate::hosts::{arguments_of, run_on};
use crate::shelf::{Shelf, no_counts};
use crate::taped_host::TapedHost;
use crate::texts::columns;
use service::Runtime;
use std::alloc::{AllocError, Global};
use std::sync::Arc;
use std::sync::atomic::Ordering;
use test_logs::{Moment, Recording};
use test_tables::{TableFault, check_all};

// The bytes of the header of the journal, a line of 18 and a fingerprint of 32, and those of the record of an empty batch.
const HEADER: usize = 50;

const RECORD: usize = 42;
// More moments than a life of two batches has.
const MOMENTS: usize = 16;

// How a life begins: what a crash left of the journal, if there was one; how many bytes its tape takes; and its ports' letters.
#[derive(Clone, Copy)]
struct Beginning<'a> {
    left: Option<&'a [u8]>,
    room: usize,
    letters: &'a str,
}

// How a life ends that answers as many clients as the port of administrators has letters, and the sum of the sequences that it published, with what it writes.
fn life<R: Runtime>(
    rt: &R,
    system: &HostRuntime,
    beginning: Beginning<'_>,
    recording: &Arc<Recording, Global>,
) -> Result<String, AllocError> {
    let alloc = rt.alloc();
    let counts = no_counts(alloc)?;
    let (clients, administration) = columns_of(beginning.letters);
    let host = TapedHost {
        shelf: Shelf {
            rt: *system,
            alloc,
            clients,
            administration,
            counts: Arc::try_clone(&counts)?,
        },
        left: beginning.left,
        room: beginning.room,
        recording: Arc::try_clone(recording)?,
    };
    let line = format!(in alloc;
        "serve a.map --port 81 --admin-port 82 --connections {} --journal t.journal",
        administration.len()
    )?;
    let (end, written) = run_on(rt, &host, Ok(arguments_of(alloc, line.as_str())?))?;
    let published = counts.published.load(Ordering::SeqCst);
    format!(in alloc; "{end} {published}|{}", written.replace(alloc, '\n', "~")?)
}

// The letters of the port of clients, and those of the port of administrators.
fn columns_of(letters: &str) -> (&str, &str) {
    letters.split_once(' ').unwrap_or((letters, ""))
}

// Whether a life that begins with these bytes of a journal publishes the batch after those whose records are whole in them.
fn follows<R: Runtime>(rt: &R, system: &HostRuntime, left: &[u8]) -> Result<bool, AllocError> {
    let alloc = rt.alloc();
    let recording = Arc::new(alloc, Recording::new(alloc, 0)?)?;
    let beginning = Beginning {
        left: Some(left),
        room: RECORD,
        letters: "c b",
    };
    let found = life(rt, system, beginning, &recording)?;
    let next = left.len().saturating_sub(HEADER) / RECORD + 1;
    let expected = format!(in alloc; "0 done {next}|listening a port another port~|")?;
    Ok(found.as_str() == expected.as_str())
}

// How many lives follow that begin with what a crash at a moment may leave, or none where one doesn't follow.
fn followed<R: Runtime>(
    rt: &R,
    system: &HostRuntime,
    moment: &Moment,
) -> Result<Option<usize>, AllocError> {
    let mut count = 0_usize;
    for end in moment.synced..=moment.bytes.len() {
        let left = moment.bytes.get(..end).unwrap_or(&[]);
        if !follows(rt, system, left)? {
            return Ok(None);
        }
        count = count.saturating_add(1);
    }
    Ok(Some(count))
}

// A life publishes two batches. It has a journal, which is synced, cut and synced as it starts: at these four moments a crash leaves the header. One
// as a record is appended leaves any of its first bytes or none, so 43 lengths, each time; and one after it is synced leaves it whole. The sum is 92.
fn all_followed<R: Runtime>(rt: &R, system: &HostRuntime) -> Result<bool, AllocError> {
    let alloc = rt.alloc();
    let recording = Arc::new(alloc, Recording::new(alloc, MOMENTS)?)?;
    let beginning = Beginning {
        left: None,
        room: 2 * RECORD,
        letters: "cc bb",
    };
    let found = life(rt, system, beginning, &recording)?;
    if found.as_str() != "0 done 3|listening a port another port~|" {
        return Ok(false);
    }
    let mut lives = 0_usize;
    for number in 0..MOMENTS {
        let Some(moment) = recording.moment(number) else {
            return Ok(number > 0 && lives == 92);
        };
        match followed(rt, system, moment)? {
            Some(count) => lives = lives.saturating_add(count),
            None => return Ok(false),
        }
    }
    Ok(false)
}

#[test]
fn a_crash_at_any_byte_loses_no_published_batch(rt: HostRuntime) -> Result<(), TableFault> {
    check_all(rt.alloc(), "lives", 1, |_, _| all_followed(&rt, &rt))
}

// How many bytes a tape takes, the letters of the ports, and how the life ends on it. `~` is a line feed. A tape that takes fewer bytes than two records
// keeps one batch, and one that takes fewer than one keeps none.
const ROOMS: &str = "\
84|cc bb|0 done 3|listening a port another port~|
83|w bb|3 JournalFailed 1|listening a port another port~|fault journal t.journal: its disk is full~
42|w bb|3 JournalFailed 1|listening a port another port~|fault journal t.journal: its disk is full~
41|w bb|3 JournalFailed 0|listening a port another port~|fault journal t.journal: its disk is full~";

// Whether a life on a fresh tape ends as a row says.
fn ends<R: Runtime>(rt: &R, system: &HostRuntime, line: &str) -> Result<bool, AllocError> {
    let alloc = rt.alloc();
    let recording = Arc::new(alloc, Recording::new(alloc, 0)?)?;
    let (room, letters, expected) = columns(line);
    let beginning = Beginning {
        left: None,
        room: room.parse().unwrap_or(0),
        letters,
    };
    let found = life(rt, system, beginning, &recording)?;
    Ok(found.as_str() == expected)
}

#[test]
fn a_batch_that_isnt_kept_isnt_published(rt: HostRuntime) -> Result<(), TableFault> {
    check_all(rt.alloc(), ROOMS, 4, |_, line| ends(&rt, &rt, line))
}
