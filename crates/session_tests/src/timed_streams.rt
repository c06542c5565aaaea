use network::{AnswerWritten, Closing, TimedReader, TimedWriter, Waits};
use std::alloc::{AllocError, Global};
use std::cell::Cell;
use std::io::{self, Read, Write};
use std::net::{OpenStream, Shutdown};
use std::rt::Clock;
use std::test::Fail;
use std::time::Duration;
use test_tables::{TableFault, check_rows};

// A clock that shows a number of seconds, and a stream whose calls take so many of them. It notes for how many
// seconds the last call might wait, and whether its writing side was closed.
#[derive(Drop)]
struct Times<'a> {
    now: Cell<u64>,
    takes: u64,
    waits: Cell<u64>,
    is_shut: Cell<bool>,
    calls: Cell<u32>,
    // The way of the calls: `signalled` where a signal interrupts the first, `stands` where they move nothing.
    way: &'a str,
}

// That clock and that stream.
#[derive(Drop)]
struct Slow<'a>(&'a Times<'a>);

impl Clock for Slow<'_> {
    fn monotonic(&self) -> io::Result<Duration> {
        Ok(Duration::from_secs(self.0.now.get()))
    }

    fn since_1970(&self) -> io::Result<Duration> {
        Ok(Duration::ZERO)
    }
}

impl Times<'_> {
    // Lets the time of a call pass, which moves a byte.
    fn pass(&self) -> io::Result<usize> {
        self.now.set(self.now.get().saturating_add(self.takes));
        self.calls.set(self.calls.get().saturating_add(1));
        match self.way {
            "signalled" if self.calls.get() == 1 => {
                Err(io::Error::from(io::ErrorKind::Interrupted))
            }
            "stands" => Err(io::Error::from(io::ErrorKind::WouldBlock)),
            _ => Ok(1),
        }
    }

    // Notes for how long the next call may wait.
    fn note(&self, wait: Option<Duration>) -> io::Result<()> {
        self.waits.set(wait.unwrap_or(Duration::ZERO).as_secs());
        Ok(())
    }
}

impl Read for Slow<'_> {
    fn read(&mut self, room: &mut [u8]) -> io::Result<usize> {
        Ok(self.0.pass()?.min(room.len()))
    }
}

impl Write for Slow<'_> {
    fn write(&mut self, bytes: &[u8]) -> io::Result<usize> {
        Ok(self.0.pass()?.min(bytes.len()))
    }

    fn flush(&mut self) -> io::Result<()> {
        Ok(())
    }
}

impl OpenStream for Slow<'_> {
    fn set_read_timeout(&self, wait: Option<Duration>) -> io::Result<()> {
        self.0.note(wait)
    }

    fn set_write_timeout(&self, wait: Option<Duration>) -> io::Result<()> {
        self.0.note(wait)
    }

    fn shutdown(&self, how: Shutdown) -> io::Result<()> {
        self.0.is_shut.set(how == Shutdown::Write);
        Ok(())
    }
}

// A reader, a writer, or an answer and the read after it: moves a byte at each call, or reports that it failed.
trait Moves {
    fn moves(&mut self) -> bool;
}

impl Moves for TimedReader<Slow<'_>, Slow<'_>> {
    fn moves(&mut self) -> bool {
        self.read(&mut [0]).is_ok()
    }
}

impl Moves for TimedWriter<Slow<'_>, Slow<'_>> {
    fn moves(&mut self) -> bool {
        self.write(&[0]).is_ok()
    }
}

impl<R: Moves, W: Moves> Moves for (R, W) {
    fn moves(&mut self) -> bool {
        self.1.moves() && self.0.moves()
    }
}

// The calls of a reader or a writer up to its first failure: how many seconds each call that moved a byte might wait, and how many calls
// there were.
fn result_of_calls<M: Moves>(
    alloc: Global,
    times: &Times<'_>,
    side: &mut M,
) -> Result<String, AllocError> {
    let mut text = String::new(alloc);
    for _ in 0..10 {
        if !side.moves() {
            break;
        }
        let wait = format!(in alloc; "{} ", times.waits.get())?;
        text.push_str(wait.as_str())?;
    }
    let calls = format!(in alloc; "in {}", times.calls.get())?;
    text.push_str(calls.as_str())?;
    Ok(text)
}

// The calls of a stream whose first call comes 5 seconds after the time of its head began. The row has how many seconds each call takes,
// and the way of the calls. An idle connection has 7 seconds, a head and an answer that stands still 30.
const WAITS: &str = "\
25 5 in 2=read 20
25 15 5 in 3=read 10
in 1=read 30 signalled
5 in 2=read 20 signalled
in 1=read 10 stands
1 1 1 in 3=write 200
1 1 1 in 3=write 290
1 in 1=write 600
1 1 1 1 1 1 1 1 1 1 in 11=write 29 signalled
in 1=write 30 signalled
in 30=write 1 stands
in 3=write 10 stands
# an answer after the head: the next head has 7 seconds to begin, and 30 then
7 30 20 10 in 4=rest 10
7 30 26 22 18 14 10 6 2 in 9=rest 4
in 1=rest 7 stands
# answers with a read between have their times each
7 7 7 7 7 7 7 7 7 7 in 20=answers 290";

// A clock at which the time of a head began 5 seconds ago.
fn times_of(takes: u64, way: &str) -> Times<'_> {
    Times {
        now: Cell::new(12),
        takes,
        waits: Cell::new(0),
        is_shut: Cell::new(false),
        calls: Cell::new(0),
        way,
    }
}

// How long the calls of a connection may wait.
fn waits() -> Waits {
    Waits {
        idle: Duration::from_secs(7),
        silence: Duration::from_secs(30),
        timeout: Duration::from_secs(30),
    }
}

// Both sides of a connection whose first head begins at 7 seconds.
fn sides<'a>(
    alloc: Global,
    times: &'a Times<'a>,
) -> Result<
    (
        TimedReader<Slow<'a>, Slow<'a>>,
        TimedWriter<Slow<'a>, Slow<'a>>,
    ),
    AllocError,
> {
    let (read, written) = AnswerWritten::pair(alloc)?;
    times.now.set(7);
    let Ok(reader) = TimedReader::start(Slow(times), Slow(times), waits(), read) else {
        return Err(AllocError);
    };
    times.now.set(12);
    Ok((
        reader,
        TimedWriter::new(Slow(times), Slow(times), waits(), written),
    ))
}

fn result_of_row(alloc: Global, row: &str) -> Result<String, AllocError> {
    let (call, rest) = row.split_once(' ').unwrap_or(("", ""));
    let (takes, way) = rest.split_once(' ').unwrap_or((rest, ""));
    let times = times_of(takes.parse().unwrap_or(0), way);
    let mut both = sides(alloc, &times)?;
    match call {
        "read" => result_of_calls(alloc, &times, &mut both.0),
        "write" => result_of_calls(alloc, &times, &mut both.1),
        "rest" => {
            let _ = both.1.write(&[]);
            times.calls.set(0);
            times.now.set(12);
            result_of_calls(alloc, &times, &mut both.0)
        }
        _ => result_of_calls(alloc, &times, &mut both),
    }
}

#[test]
fn calls_wait_for_what_is_left_of_a_time(rt: HostRuntime) -> Result<(), TableFault> {
    check_rows(rt.alloc(), WAITS, '=', 16, result_of_row)
}

// For how long two reads may wait of a client that may be silent for 9 seconds: 5 and 24 seconds after its first head began, which has 30.
fn silent_waits(alloc: Global) -> Result<(u64, u64), AllocError> {
    let times = times_of(0, "");
    let (read, _written) = AnswerWritten::pair(alloc)?;
    times.now.set(7);
    let waits = Waits {
        silence: Duration::from_secs(9),
        ..waits()
    };
    let Ok(mut reader) = TimedReader::start(Slow(&times), Slow(&times), waits, read) else {
        return Err(AllocError);
    };
    times.now.set(12);
    let _ = reader.read(&mut [0]);
    let first = times.waits.get();
    times.now.set(31);
    let _ = reader.read(&mut [0]);
    Ok((first, times.waits.get()))
}

#[test]
fn a_read_waits_no_longer_than_a_client_may_be_silent(rt: HostRuntime) -> Result<(), Fail> {
    let waits = silent_waits(rt.alloc())?;
    assert_eq!(rt; waits, (9, 6));
    Ok(())
}

#[test]
fn the_writing_side_is_closed(rt: HostRuntime) -> Result<(), AllocError> {
    let times = times_of(0, "");
    let (_, mut writer) = sides(rt.alloc(), &times)?;
    writer.shut();
    assert!(rt; times.is_shut.get());
    Ok(())
}
