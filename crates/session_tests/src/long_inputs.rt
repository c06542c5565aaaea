use crate::cuts::opened;
use crate::endings::{ended, is_played};
use crate::texts::{QUERY, SQUARE, SQUARE_MAP, SQUARE_TEXT, columns, spelt};
use crate::transcripts::is_answered;
use mapdefs::Items;
use mapmachine::{Bytes, Event, Mime, Reply};
use std::alloc::{AllocError, Global};
use test_tables::{TableFault, check_all, check_rows};

// A query of 100,000 bytes, most of them the zeros before a number.
fn long_query(alloc: Global) -> Result<String, AllocError> {
    let zeros = "0".repeat(alloc, 100_000 - QUERY.len())?;
    let bbox = format!(in alloc; "BBOX={zeros}0")?;
    QUERY.replace(alloc, "BBOX=0", bbox.as_str())
}

// Whether a script of 300 queries, a long one and a row's last command has the expected text: the row's fault, where
// there is such a command.
fn is_long_script(alloc: Global, row: &str) -> Result<bool, AllocError> {
    let (last, fault, _) = columns(row);
    let turns = spelt(alloc, "QUERY ^~QUERY a~QUERY a~")?.repeat(alloc, 100)?;
    let long = long_query(alloc)?;
    let script = format!(in alloc; "{turns}QUERY {long}\n{last}")?;
    let text = if last.is_empty() {
        let answers = spelt(alloc, "#@@")?.repeat(alloc, 100)?;
        format!(in alloc; "{answers}{SQUARE_TEXT}")?
    } else {
        format!(in alloc; "{fault}\n")?
    };
    Ok(long.len() == 100_000 && is_played(alloc, SQUARE_MAP, script.as_str(), text.as_str())?)
}

#[test]
fn long_scripts_are_played_to_their_end(rt: HostRuntime) -> Result<(), TableFault> {
    check_all(rt.alloc(), "|\nQUERY b|fault script 302", 2, is_long_script)
}

// How often the square is a ring of one feature, and the picture.
const RINGS: &str = "\
1000|.... .... .... ....
1001|.... .##. .##. ....";

// Whether the square as so many rings has the picture of its row.
fn has_rings(alloc: Global, row: &str) -> Result<bool, AllocError> {
    let (count, rows, _) = columns(row);
    let ring = format!(in alloc; "{SQUARE}\n")?;
    let rings = ring.repeat(alloc, count.parse().unwrap_or(0))?;
    let row = format!(in alloc; "{rings}||{rows}")?;
    is_answered(alloc, row.as_str())
}

#[test]
fn a_thousand_rings_count_together(rt: HostRuntime) -> Result<(), TableFault> {
    check_all(rt.alloc(), RINGS, 2, has_rings)
}

// The replies to so many pairs of a query without VERSION and one without a fault, and the sequence of
// the machine after them.
fn replies(alloc: Global, count: usize) -> Result<(Items<Reply>, u64), AllocError> {
    let mut events = Vec::new(alloc);
    for _ in 0..count {
        events.push(Event::Query(Bytes::new(b"REQUEST=GetMap")))?;
        events.push(Event::Query(Bytes::new(QUERY.as_bytes())))?;
    }
    let mut machine = opened(alloc, SQUARE_MAP)?;
    let replies = machine.run(&events)?;
    Ok((replies, machine.sequence()))
}

// Whether a reply is the one of its number: an exception without VERSION has 187 and 21 and 7 bytes.
fn is_reply(reply: &Reply, number: usize) -> bool {
    match reply {
        Reply::Answered(answer) if number % 2 == 0 => {
            answer.body.len() == 215 && answer.mime == Mime::Xml
        }
        Reply::Answered(answer) => answer.body.len() == 59 && answer.mime == Mime::Pixmap,
        _ => false,
    }
}

// How many replies there are to so many pairs of events, how many of them are right, and the sequence.
fn result_of_replies(alloc: Global, count: &str) -> Result<String, AllocError> {
    let (replies, sequence) = replies(alloc, count.parse().unwrap_or(0))?;
    let mut right = 0_usize;
    for (number, reply) in replies.as_slice().iter().enumerate() {
        if is_reply(reply, number) {
            right = right.saturating_add(1);
        }
    }
    let result = format!(in alloc; "{} {right} {sequence}", replies.len());
    drop(replies);
    result
}

#[test]
fn machines_run_over_many_events(rt: HostRuntime) -> Result<(), TableFault> {
    check_rows(rt.alloc(), "300 300 0=150", '=', 1, result_of_replies)
}

// Comments, blank lines and lines that are nearly those of two percent signs: 100 bytes, 5 lines.
const TURN: &str =
    "# %%\n\n#%%\n  # a comment of some length, so that the mapfile has twenty megabytes #\n   \t           #\n";

// The rests of sessions, and how they end.
const RESTS: &str = "\
$%%~QUERY ^~|0 done|#|
MAP~FOO END~|1 MapfileFault||fault line 1000002 kind 2~";

// Whether a session whose mapfile has 20,000,000 bytes, a million lines that describe nothing, and then the rest of its
// row ends as its row has it.
fn is_large(alloc: Global, row: &str) -> Result<bool, AllocError> {
    let row = spelt(alloc, row)?;
    let (rest, expected) = row.split_once('|').unwrap_or(("", "no row"));
    let mut session = TURN.repeat(alloc, 200_000)?;
    session.push_str(rest)?;
    let (found, _) = ended(alloc, "session", (session.as_str(), ""), 1_000_000, None)?;
    Ok(TURN.len() == 100 && found.as_str() == expected)
}

#[test]
fn large_sessions_are_played(rt: HostRuntime) -> Result<(), TableFault> {
    check_all(rt.alloc(), RESTS, 2, is_large)
}
