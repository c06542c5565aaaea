//! What a worker of a test serves, whom it asks, and what it waits for.

use crate::clients::{Client, NoWaker};
use accesslog::{Cause, EndsEarly};
use answers::Answer;
use eventloop::Poller;
use httpedge::{Asks, Busy};
use mapdefs::Items;
use operations::Mime;
use std::alloc::Global;
use std::sync::{Arc, Mutex, Wait};
use std::thread;
use std::time::Duration;
use turns::{ReadOutcome, Transport, WriteOutcome};

/// Bytes that a worker notes and a test reads.
pub type Notes = Arc<Mutex<Vec<u8>>, Global>;

/// An answerer that notes its queries, and answers each with nothing.
#[derive(Drop)]
pub struct Noting<R: Wait + Drop> {
    pub rt: R,
    pub alloc: Global,
    /// The queries, one after the other.
    pub queries: Notes,
}

impl<R: Wait + Drop> Asks for Noting<R> {
    ghost answers = { λ _ _ _ _. Unit {0} };

    fn answer(&mut self, query: &[u8]) -> Result<Answer, Busy> {
        match self.queries.lock(&self.rt).extend_from_slice(query) {
            Ok(()) => Ok(Answer {
                mime: Mime::Plain,
                body: Items::of(Vec::new(self.alloc)),
            }),
            Err(_) => Err(Busy),
        }
    }
}

/// An answerer that takes 120 milliseconds for each query, and then notes it.
#[derive(Drop)]
pub struct Slow<R: Wait + Drop> {
    pub system: HostRuntime,
    pub noting: Noting<R>,
}

impl<R: Wait + Drop> Asks for Slow<R> {
    ghost answers = { λ _ _ _ _. Unit {0} };

    fn answer(&mut self, query: &[u8]) -> Result<Answer, Busy> {
        thread::sleep(&self.system, Duration::from_millis(120));
        self.noting.answer(query)
    }
}

/// A client in memory whose bytes come once the queries that were asked have so many bytes, and which notes what it gets.
#[derive(Drop)]
pub struct Watched<R: Wait + Drop> {
    pub rt: R,
    pub client: Client,
    /// The queries that were asked.
    pub queries: Notes,
    /// How many bytes these have before the client sends.
    pub after: usize,
    /// What the client got.
    pub got: Notes,
}

impl<R: Wait + Drop> Transport for Watched<R> {
    ghost use Rattle.std.specs.Prelude.{None};

    ghost delivered = { λ _. None };

    ghost accepted = { λ _. None };

    ghost reads = { λ _ _ _. Unit {0} };

    ghost writes = { λ _ _ _. Unit {0} };

    ghost shuts = { λ _ _. Unit {0} };

    fn read(&mut self, room: &mut [u8]) -> ReadOutcome {
        if self.queries.lock(&self.rt).len() < self.after {
            return ReadOutcome::WouldBlock;
        }
        self.client.read(room)
    }

    fn write(&mut self, first: &[u8], second: &[u8]) -> WriteOutcome {
        let outcome = self.client.write(first, second);
        let WriteOutcome::Bytes(count) = outcome else {
            return outcome;
        };
        let part = if first.is_empty() { second } else { first };
        let taken = part.get(..count).unwrap_or(&[]);
        match self.got.lock(&self.rt).extend_from_slice(taken) {
            Ok(()) => outcome,
            Err(_) => WriteOutcome::Failed,
        }
    }

    fn shut_down(&mut self) {}
}

impl<R: Wait + Drop> EndsEarly for Watched<R> {
    fn note_end(&mut self, _cause: Cause) {}
}

/// A poller that waits a millisecond, and reports each time that the clients at the first so many slots may go on.
#[derive(Drop)]
pub struct Reporting {
    pub rt: HostRuntime,
    pub slots: usize,
}

impl<T> Poller<T> for Reporting {
    ghost reported = { λ _ _ _. Unit {0} };

    type Waker = NoWaker;

    fn waker(&self) -> Option<NoWaker> {
        Some(NoWaker)
    }

    fn register(&mut self, _transport: &mut T, _slot: usize) -> bool {
        true
    }

    fn wait(&mut self, at_most: Duration, room: &mut [usize]) -> usize {
        if !at_most.is_zero() {
            thread::sleep(&self.rt, Duration::from_millis(1));
        }
        let count = room.len().min(self.slots);
        for slot in 0..count {
            room[slot] = slot;
        }
        count
    }
}
