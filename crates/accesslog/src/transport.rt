//! A transport whose answers are logged.

ghost use Rattle.std.specs.Prelude.{◌≡◌, ◌++◌, [], None, IfSome, MatchOption};
ghost use Rattle.std.specs.Io.KnownBytes.{Appends};
ghost use Rattle.turns.specs.Transport.{HasRead, HasWritten};

use crate::hint::hint_on;
use crate::line::{Cause, end_line, hint_line};
use crate::queue::LogQueue;
use crate::record::Record;
use std::alloc::Global;
use std::rt::Clock;
use std::sync::Wait;
use turns::{Answered, ReadOutcome, Transport, WriteOutcome};

/// A connection that notes why it ends before its client had all of its answers.
pub trait EndsEarly {
    /// It ends for this cause.
    fn note_end(&mut self, cause: Cause);
}

// The notes on a connection, and the queue for their lines.
#[derive(Drop)]
struct AnswerLog<R> {
    alloc: Global,
    record: Record,
    queue: LogQueue<R>,
}

/// A transport that does what the one within does. Where a log is kept, a line is put into its queue for each answer that was sent whole,
/// and for an early end.
#[derive(Drop)]
pub struct LoggedTransport<T, R> {
    inner: T,
    noted: Option<AnswerLog<R>>,
}

impl<T, R> LoggedTransport<T, R> {
    /// The transport of the connection of a number, with the queue of the log, if there is one.
    pub fn new(alloc: Global, inner: T, connection: u64, queue: Option<LogQueue<R>>) -> Self
        ensures inner { result.inner ≡ inner }
        ensures numbered { MatchOption queue (result.noted ≡ None)
            (λ _. IfSome result.noted (λ noted. noted.«record».connection ≡ connection)) }
    {
        let noted = match queue {
            Some(queue) => Some(AnswerLog {
                alloc,
                record: Record::new(alloc, connection),
                queue,
            }),
            None => None,
        };
        LoggedTransport { inner, noted }
    }

    /// The transport within.
    pub fn inner(&mut self) -> &mut T {
        &mut self.inner
    }
}

impl<T: Transport, R: Clock + Wait + Copy> Transport for LoggedTransport<T, R> {
    ghost delivered = { λ t. T.delivered t.inner };

    ghost accepted = { λ t. T.accepted t.inner };

    ghost reads = { λ old outcome new. T.reads old.inner outcome new.inner };

    ghost writes = { λ old outcome new. T.writes old.inner outcome new.inner };

    ghost shuts = { λ old new. T.shuts old.inner new.inner };

    fn read(&mut self, room: &mut [u8]) -> ReadOutcome {
        let outcome = self.inner.read(room);
        if let Some(noted) = &mut self.noted {
            note_read(noted, outcome);
        }
        outcome
    }

    fn write(&mut self, first: &[u8], second: &[u8]) -> WriteOutcome {
        self.inner.write(first, second)
    }

    fn write_answer(
        &mut self,
        answered: &Answered<'_>,
        first: &[u8],
        second: &[u8],
    ) -> WriteOutcome {
        let outcome = self.inner.write_answer(answered, first, second);
        if let Some(noted) = &mut self.noted {
            let written = Written {
                head: first,
                body: second,
                outcome,
            };
            note_write(noted, answered, written);
        }
        outcome
    }

    fn shut_down(&mut self) {
        self.inner.shut_down();
    }
}

// Notes that a read gave bytes.
fn note_read<R: Clock + Wait + Copy>(noted: &mut AnswerLog<R>, outcome: ReadOutcome) {
    if let ReadOutcome::Bytes(_) = outcome {
        noted.record.came(noted.queue.now());
    }
}

// What was left of a response, and the outcome of a write of it.
#[derive(Clone, Copy)]
struct Written<'a> {
    head: &'a [u8],
    body: &'a [u8],
    outcome: WriteOutcome,
}

// Notes the bytes that a write took of those that were left. Where the response was sent whole, it puts the line on it, and one on the
// likely cause of its fault, if that is known.
fn note_write<R: Clock + Wait + Copy>(
    noted: &mut AnswerLog<R>,
    answered: &Answered<'_>,
    written: Written<'_>,
) {
    let WriteOutcome::Bytes(count) = written.outcome else {
        return;
    };
    let left = (written.head.len() as u64).saturating_add(written.body.len() as u64);
    if noted.record.went(answered.is_followed, left, count) {
        let line = noted.record.line(answered, noted.queue.now());
        noted.queue.put(line);
        put_hint(noted, answered.target, written.body);
    }
}

// Puts the line on the likely cause of the fault that a document is on, if that is known.
fn put_hint<R: Clock + Wait + Copy>(noted: &mut AnswerLog<R>, target: &[u8], document: &[u8]) {
    if let Some(hint) = hint_on(noted.alloc, target, document) {
        let line = hint_line(noted.alloc, noted.record.connection(), hint).ok();
        noted.queue.put(line);
    }
}

impl<T, R: Clock + Wait + Copy> EndsEarly for LoggedTransport<T, R> {
    fn note_end(&mut self, cause: Cause) {
        if let Some(noted) = &mut self.noted {
            let line = end_line(noted.alloc, noted.record.connection(), cause).ok();
            noted.queue.put(line);
        }
    }
}
