//! A sink whose lines are logged.

ghost use Rattle.std.specs.Prelude.{◌≡◌, ◌≤◌, ◌+◌, true, false, length, take, nat_eq, if◌then◌else◌, IfOk, OnErr, MatchResult};
ghost use Rattle.std.specs.Io.KnownBytes.{Appends, Keeps};

use crate::line::command_line;
use crate::queue::LogQueue;
use std::alloc::Global;
use std::rt::Clock;
use std::sync::Wait;
use streams::{PutFailed, Sink};

// The line that is being written, and the queue for it.
#[derive(Drop)]
struct LineLog<R> {
    alloc: Global,
    connection: u64,
    line: Vec<u8>,
    queue: LogQueue<R>,
}

/// A sink that does what the one within does. Where a log is kept, each line that it takes is put into its queue.
#[derive(Drop)]
pub struct LoggedSink<O, R> {
    inner: O,
    noted: Option<LineLog<R>>,
}

impl<O, R> LoggedSink<O, R> {
    /// The sink of the connection of a number, with the queue of the log, if there is one.
    pub fn new(alloc: Global, inner: O, connection: u64, queue: Option<LogQueue<R>>) -> Self
        ensures { result.inner ≡ inner }
    {
        let noted = match queue {
            Some(queue) => Some(LineLog {
                alloc,
                connection,
                line: Vec::new(alloc),
                queue,
            }),
            None => None,
        };
        LoggedSink { inner, noted }
    }

    /// The sink within.
    pub fn into_inner(self) -> O
    where
        R: Drop,
        ensures { result ≡ self.inner }
    {
        let LoggedSink { inner, .. } = self;
        inner
    }
}

// Notes bytes that were taken, and puts each line that ends in them.
fn note<R: Clock + Wait + Copy>(noted: &mut LineLog<R>, bytes: &[u8]) {
    for byte in bytes {
        let _ = noted.line.push(*byte);
        if *byte == b'\n' {
            let line = command_line(noted.alloc, noted.connection, &noted.line).ok();
            noted.queue.put(line);
            noted.line.clear();
        }
    }
}

impl<O: Sink, R: Clock + Wait + Copy> Sink for LoggedSink<O, R> {
    ghost held = { λ s. O.held s.inner };

    ghost taken = { λ s. O.taken s.inner };

    ghost is_flushed = { λ s. O.is_flushed s.inner };

    ghost put_failed = { λ s. O.put_failed s.inner };

    fn put(&mut self, bytes: &[u8]) -> Result<usize, PutFailed> {
        let count = self.inner.put(bytes)?;
        if let Some(noted) = &mut self.noted {
            note(noted, bytes.get(..count).unwrap_or(bytes));
        }
        Ok(count)
    }

    fn flush(&mut self) -> Result<(), PutFailed> {
        self.inner.flush()
    }

    fn taken(&self) -> u128 {
        self.inner.taken()
    }
}
