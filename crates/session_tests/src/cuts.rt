use crate::memory::{Memory, stream_of};
use crate::texts::{SOME_MAP, SQUARE_MAP, spelt};
use mapmachine::Machine;
use mapparse::{Files, parse};
use std::alloc::{AllocError, Global};
use streams::{Flagged, WriteFault};
use subcommands::{play_script, summary};
use test_tables::{TableFault, check_rows};

/// The machine of a mapfile. Its error is out of memory, or a fault, which the tests don't expect.
pub fn opened(alloc: Global, map: &str) -> Result<Machine, AllocError> {
    match parse(alloc, map.as_bytes(), &Files::new(alloc)) {
        Ok(map) => Machine::open(alloc, map),
        Err(_) => Err(AllocError),
    }
}

// Whether a call that writes a text ended as expected with a writer that took so many bytes, one by one, and then
// failed. The writer holds the first bytes, and the error has their number.
fn is_cut(
    outcome: Result<(), WriteFault>,
    sink: Flagged<Memory<'_>>,
    whole: &str,
    room: usize,
) -> bool {
    let count = room.min(whole.len());
    let written = count as u128;
    let expected = if room < whole.len() {
        Err(WriteFault { written })
    } else {
        Ok(())
    };
    outcome == expected
        && sink.put_failed() == expected.is_err()
        && Some(sink.into_inner().held.as_slice()) == whole.as_bytes().get(..count)
}

// The text of a summary that is written, and the first number of bytes after which a failing writer doesn't end it as
// expected, of so many.
fn result_of_summary(alloc: Global, rooms: &str) -> Result<String, AllocError> {
    let Ok(map) = parse(alloc, SOME_MAP.as_bytes(), &Files::new(alloc)) else {
        return Err(AllocError);
    };
    let wrong = (0..rooms.parse().unwrap_or(0)).find(|room| {
        let mut sink = stream_of(alloc, "", 1, Some(*room));
        let outcome = summary(&map, &mut sink);
        !is_cut(outcome, sink, "ok 2 layers 3 features\n", *room)
    });
    drop(map);
    format!(in alloc; "{wrong:?}")
}

#[test]
fn summaries_are_written_up_to_a_failure(rt: HostRuntime) -> Result<(), TableFault> {
    check_rows(rt.alloc(), "None=30", '=', 1, result_of_summary)
}

// The first number of bytes after which a failing writer doesn't end a script of the square and of an exception as
// expected, of so many. The picture has 154 bytes and the exception 235.
fn result_of_script(alloc: Global, rooms: &str) -> Result<String, AllocError> {
    let mut machine = opened(alloc, SQUARE_MAP)?;
    let wrong = first_wrong(alloc, &mut machine, rooms.parse().unwrap_or(0));
    drop(machine);
    let wrong = wrong?;
    format!(in alloc; "{wrong:?}")
}

fn first_wrong(
    alloc: Global,
    machine: &mut Machine,
    rooms: usize,
) -> Result<Option<usize>, AllocError> {
    let script = spelt(alloc, "QUERY ^~QUERY x~")?;
    let whole = spelt(alloc, "#@")?;
    for room in 0..rooms {
        let mut sink = stream_of(alloc, "", 1, Some(room));
        let outcome = play_script(machine, script.as_bytes(), &mut sink);
        if !is_cut(outcome, sink, whole.as_str(), room) {
            return Ok(Some(room));
        }
    }
    Ok(None)
}

#[test]
fn writers_that_fail_hold_the_first_bytes(rt: HostRuntime) -> Result<(), TableFault> {
    check_rows(rt.alloc(), "None=400", '=', 1, result_of_script)
}
