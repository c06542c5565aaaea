ghost use Rattle.std.specs.Prelude.{◌≡◌, OnErr, OnOk};
ghost use Rattle.std.specs.Option.{IfNone};

use crate::connection::Connection;
use crate::gate::Gate;
use crate::queue::Queue;
use crate::worker::{Worker, run};
use httpedge::Asks;
use std::alloc::{AllocError, Global};
use std::sync::{Arc, Wait};
use std::thread::{self, JoinHandle, Threads};
use thiserror::Error;

/// The workers could not be started: there was no member, or a thread or memory for them was refused.
#[derive(Clone, Copy, Debug, Error)]
#[error("the workers can't be started")]
pub struct StartError;

/// A source of connections.
pub trait Streams<C> {
    /// Whether no more will come.
    ghost ended: { Self → Type 0 };

    /// The next one, or none where no more will come.
    fn next(&mut self) -> Option<C>
        ensures { IfNone result (ended self.new) };
}

// The connections that wait for a worker, with their numbers.
type WorkerQueue<C> = Arc<Queue<(u64, C)>, Global>;

// Workers that were started, each with its queue.
#[derive(Drop)]
struct Workers<C: Drop> {
    alloc: Global,
    queues: Vec<WorkerQueue<C>>,
    threads: Vec<JoinHandle<()>>,
}

impl<C: Connection + Drop> Workers<C> {
    // No workers yet, with room for so many.
    fn new(alloc: Global, count: usize) -> Result<Self, AllocError> {
        Ok(Workers {
            alloc,
            queues: Vec::with_capacity(alloc, count)?,
            threads: Vec::with_capacity(alloc, count)?,
        })
    }

    // Gives a connection to its worker. Where memory is refused, its client gets the answer that the server is busy.
    fn dispatch<R: Wait>(&self, rt: &R, number: u64, connection: C) {
        let worker = number.checked_rem(self.queues.len() as u64).unwrap_or(0) as usize;
        let Some(queue) = self.queues.get(worker) else {
            return;
        };
        if let Err((_, connection)) = queue.put(rt, (number, connection)) {
            connection.turn_away(self.alloc);
        }
    }

    // Waits until all connections that were given are served.
    fn end<R: Wait + Threads>(self, rt: &R) {
        let Workers {
            queues,
            threads,
            ..
        } = self;
        for queue in &queues {
            queue.close(rt);
        }
        for thread in threads {
            thread.join(rt);
        }
    }
}

// Starts one more worker.
fn start_worker<R, A, C, G>(
    rt: &R,
    workers: &mut Workers<C>,
    worker: Worker<A, G>,
) -> Result<(), AllocError>
where
    R: Wait + Threads + Send + Copy + Drop + 'static,
    A: Asks + Send + Drop + 'static,
    C: Connection + Send + Drop + 'static,
    G: Gate + Send + Sync + Drop + 'static,
{
    let alloc = workers.alloc;
    let queue = Arc::new(alloc, Queue::new(alloc))?;
    let theirs = Arc::try_clone(&queue)?;
    workers.queues.push(queue)?;
    let handle = *rt;
    match thread::spawn(rt, move || run(&handle, alloc, worker, &theirs)) {
        Ok(thread) => {
            workers.threads.push(thread)?;
            Ok(())
        }
        Err(_) => Err(AllocError),
    }
}

// Starts a worker for each member.
fn start_all<R, A, C, G>(
    rt: &R,
    workers: &mut Workers<C>,
    members: Vec<A>,
    gate: &Arc<G, Global>,
) -> Result<(), AllocError>
where
    R: Wait + Threads + Send + Copy + Drop + 'static,
    A: Asks + Send + Drop + 'static,
    C: Connection + Send + Drop + 'static,
    G: Gate + Send + Sync + Drop + 'static,
{
    for member in members {
        let worker = Worker::new(member, Arc::try_clone(gate)?);
        start_worker(rt, workers, worker)?;
    }
    Ok(())
}

// Gives each connection to its worker, until no more come.
fn dispatch_all<R: Wait, C: Connection + Drop, T: Streams<C>>(
    rt: &R,
    workers: &Workers<C>,
    streams: &mut T,
)
    ensures { T.ended streams.new }
{
    let mut number = 0_u64;
    for _ in rt.forever() {
        let Some(connection) = streams.next() else {
            return;
        };
        number = number.saturating_add(1);
        workers.dispatch(rt, number, connection);
    }
    unreachable!()
}

/// Starts a worker for each member, and gives them connection after connection, numbered from 1: connection c to member
/// c mod N, of N. It returns once no more come and all are served. A connection waits for its worker as long as there
/// is memory for it. Where that is refused, or the memory for its head, its client gets the answer that the server is
/// busy.
///
/// The error is that there is no member, or that a thread or memory for the workers was refused; then no connection was
/// taken.
pub fn work<R, A, C, T, G>(
    rt: &R,
    members: Vec<A>,
    streams: &mut T,
    gate: &Arc<G, Global>,
) -> Result<(), StartError>
where
    R: AllocGlobal + Wait + Threads + Send + Copy + Drop + 'static,
    A: Asks + Send + Drop + 'static,
    C: Connection + Send + Drop + 'static,
    T: Streams<C>,
    G: Gate + Send + Sync + Drop + 'static,
    ensures served { OnOk result (T.ended streams.new) }
    ensures refused { OnErr result (streams.new ≡ streams.old) }
{
    if members.is_empty() {
        return Err(StartError);
    }
    let Ok(mut workers) = Workers::new(rt.alloc(), members.len()) else {
        return Err(StartError);
    };
    let started = start_all(rt, &mut workers, members, gate);
    if started.is_ok() {
        dispatch_all(rt, &workers, streams);
    }
    workers.end(rt);
    match started {
        Ok(()) => Ok(()),
        Err(_) => Err(StartError),
    }
}
