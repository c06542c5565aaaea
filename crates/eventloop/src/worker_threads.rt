ghost use Rattle.std.specs.Prelude.{◌≡◌, ◌+◌, ◌-◌, ◌^◌, [], ◌∷◌, ◌++◌, length, min, IfOk, IfSome, IsSome, OnOk};
ghost use Rattle.std.specs.List.{All};
ghost use Rattle.eventloop.specs.Rounds.{AllFree, HasBeen};
ghost use Rattle.eventloop.specs.Working.{BeganWith};
ghost use Rattle.turns.specs.Table.{timeouts_of};
ghost use Rattle.turns.specs.declared.times.Timeouts.{Timeouts};

use crate::handed_over::Ending;
use crate::handover::{Handover, MAX_WAITING};
use crate::poller::{Poller, Wakes};
use crate::rounds::run;
use crate::turning_away::turn_away;
use crate::worker::Worker;
use accesslog::EndsEarly;
use httpedge::Asks;
use std::alloc::{AllocError, Global};
use std::rt::Clock;
use std::snapshot::Snapshot;
use std::sync::{Arc, Wait};
use std::thread::{self, Promise, PromisedHandle, Threads};
use std::time::Instant;
use thiserror::Error;
use turns::Transport;

/// A worker can't be started: its waker, its thread or memory for it was refused, or there is no clock.
#[derive(Clone, Copy, Debug, Error)]
#[error("a worker can't be started")]
pub struct WorkerStartError;

/// The promise of a worker's thread: from none on the worker that it gives back served its connections in rounds, until it was told to end and
/// had none, within the times with which it began.
#[derive(Drop)]
pub struct HasServed<A, T: Drop, P> {
    begun: Snapshot<Worker<A, T, P>>,
}

impl<A: Asks, T: Transport + Drop, P> Promise<Worker<A, T, P>> for HasServed<A, T, P> {
    ghost kept_by = { λ promise left. HasBeen A.answers ⟦<T as Transport>⟧ left
        × (timeouts_of left.table ≡ timeouts_of promise.begun.value.table) };
}

/// Workers that were started, to which connections are handed over in turn.
#[derive(Drop)]
pub struct WorkerThreads<A: Asks, T: Transport + Drop, P, W: Drop> {
    handovers: Vec<Arc<Handover<T, W>, Global>>,
    threads: Vec<PromisedHandle<Worker<A, T, P>, HasServed<A, T, P>>>,
    // Room for the workers that the threads give back, so that no memory is wanted at the end.
    ended: Vec<Worker<A, T, P>>,
    // How many connections were handed over.
    count: u64,
    // How often a connection needed a descriptor.
    pressed: u64,
    ghost none_ended: { ended.items ≡ [] },
}

impl<A: Asks + Drop, T: Transport + EndsEarly + Drop, P: Drop, W: Wakes + Drop> WorkerThreads<
    A,
    T,
    P,
    W,
> {
    /// No workers yet, with room for so many. Its error is that memory was refused.
    pub fn new(alloc: Global, count: usize) -> Result<Self, AllocError>
        ensures began { (times : Timeouts) → IfOk result (λ workers. BeganWith times workers.threads.items) }
        ensures none { IfOk result (λ workers. (workers.threads.items ≡ []) × (workers.count ≡ 0)) }
    {
        Ok(WorkerThreads {
            handovers: Vec::with_capacity(alloc, count)?,
            threads: Vec::with_capacity(alloc, count)?,
            ended: Vec::with_capacity(alloc, count)?,
            count: 0,
            pressed: 0,
        })
    }

    // The worker of a number.
    fn worker(&self, number: u64) -> Option<&Handover<T, W>> {
        let worker = number.checked_rem(self.handovers.len() as u64).unwrap_or(0) as usize;
        match self.handovers.get(worker) {
            Some(handover) => Some(handover),
            None => None,
        }
    }

    /// Hands over the next connection, without a wait: connection c to worker c mod N, of N, counted from 1. Where memory is
    /// refused its client gets the answer that the server is busy. One that couldn't be had for calls that never wait is counted, too.
    pub fn hand_over<R: Wait>(&mut self, rt: &R, transport: Option<T>)
        ensures threads { self.new.threads ≡ self.old.threads }
        ensures count { self.new.count ≡ min (self.old.count + 1) (2 ^ 64 - 1) }
    {
        self.count = self.count.saturating_add(1);
        let (Some(worker), Some(transport)) = (self.worker(self.count), transport) else {
            return;
        };
        if let Err(mut transport) = worker.put(rt, transport) {
            turn_away(&mut transport);
        }
    }

    /// A further connection needs a descriptor: of one worker, the next each time, a connection gives way, if one may.
    pub fn press<R: Wait>(&mut self, rt: &R)
        ensures threads { self.new.threads ≡ self.old.threads }
        ensures count { self.new.count ≡ self.old.count }
    {
        self.pressed = self.pressed.saturating_add(1);
        if let Some(worker) = self.worker(self.pressed) {
            worker.press(rt);
        }
    }

    /// Whether a further connection may be accepted: fewer than `MAX_WAITING` wait for their workers.
    pub fn has_place<R: Wait>(&self, rt: &R) -> bool {
        let mut waiting = 0_usize;
        for handover in &self.handovers {
            waiting = waiting.saturating_add(handover.waiting(rt));
        }
        waiting < MAX_WAITING
    }

    /// Whether a worker has connections.
    pub fn is_serving<R: Wait>(&self, rt: &R) -> bool {
        for handover in &self.handovers {
            if handover.is_serving(rt) {
                return true;
            }
        }
        false
    }

    /// Has each worker end, in one way or the other, waits until it has, and gives all back, if no more were started than there was room for.
    pub fn end<R: Wait + Threads>(self, rt: &R, ending: Ending) -> Option<Vec<Worker<A, T, P>>>
        ensures served { IfSome result
            (λ workers. All (λ worker. HasBeen A.answers ⟦<T as Transport>⟧ worker) workers.items) }
        ensures times { (times : Timeouts) → BeganWith times self.threads.items
            → IfSome result (λ workers. All (λ worker. timeouts_of worker.table ≡ times) workers.items) }
        ensures all { IfSome result (λ workers. length workers.items ≡ length self.threads.items) }
    {
        let WorkerThreads {
            handovers,
            threads,
            ended,
            ..
        } = self;
        for handover in &handovers {
            handover.end(rt, ending);
        }
        join_all(rt, threads, ended)
    }
}

// Waits until each of these threads has ended. Their workers come behind those that ended before, if there is room for all.
fn join_all<R: Threads, A: Asks + Drop, T: Transport + Drop, P: Drop>(
    rt: &R,
    mut threads: Vec<PromisedHandle<Worker<A, T, P>, HasServed<A, T, P>>>,
    ended: Vec<Worker<A, T, P>>,
) -> Option<Vec<Worker<A, T, P>>>
    ensures served { All (λ worker. HasBeen A.answers ⟦<T as Transport>⟧ worker) ended.items
        → IfSome result (λ workers. All (λ worker. HasBeen A.answers ⟦<T as Transport>⟧ worker) workers.items) }
    ensures times { (times : Timeouts) → BeganWith times threads.items → All (λ worker. timeouts_of worker.table ≡ times) ended.items
        → IfSome result (λ workers. All (λ worker. timeouts_of worker.table ≡ times) workers.items) }
    ensures all { IfSome result (λ workers. length workers.items ≡ length ended.items + length threads.items) }
{
    let mut ended = Some(ended);
    while let Some(thread) = threads.pop() {
        let worker = thread.join(rt);
        ended = with_one_more(ended, worker);
    }
    ended
}

// The workers that ended, with one more behind them, if there is room for it.
fn with_one_more<A: Drop, T: Transport + Drop, P: Drop>(
    ended: Option<Vec<Worker<A, T, P>>>,
    worker: Worker<A, T, P>,
) -> Option<Vec<Worker<A, T, P>>>
    ensures more { IfSome result (λ workers. IfSome ended (λ before. workers.items ≡ before.items ++ worker ∷ [])) }
    ensures some { IsSome result → IsSome ended }
{
    let mut ended = ended?;
    match ended.push(worker) {
        Ok(()) => Some(ended),
        Err(_) => None,
    }
}

// A worker that has no connection, and when it begins.
#[derive(Drop)]
struct Fresh<A, T: Drop, P> {
    worker: Worker<A, T, P>,
    start: Instant,
    ghost free: { AllFree worker.table },
}

// Runs a worker that has no connection, until it ends.
fn run_whole<R, A, T, P, W>(
    rt: &R,
    fresh: Fresh<A, T, P>,
    handover: &Handover<T, W>,
) -> Worker<A, T, P>
where
    R: Clock + Wait,
    A: Asks + Drop,
    T: Transport + EndsEarly + Drop,
    P: Poller<T> + Drop,
    W: Wakes,
    ensures been { HasBeen A.answers ⟦<T as Transport>⟧ result }
    ensures times { timeouts_of result.table ≡ timeouts_of fresh.worker.table }
{
    let Fresh { worker, start } = fresh;
    run(rt, start, worker, handover)
}

/// Starts one more worker, in a thread of its own.
pub fn start_worker<R, A, T, P>(
    rt: &R,
    alloc: Global,
    workers: &mut WorkerThreads<A, T, P, P::Waker>,
    worker: Worker<A, T, P>,
) -> Result<(), WorkerStartError>
where
    R: Clock + Wait + Threads + Send + Copy + Drop + 'static,
    A: Asks + Send + Drop + 'static,
    T: Transport + EndsEarly + Send + Drop + 'static,
    P: Poller<T> + Send + Drop + 'static,
    requires free { AllFree worker.table }
    ensures began { (times : Timeouts) → BeganWith times workers.old.threads.items → timeouts_of worker.table ≡ times
        → BeganWith times workers.new.threads.items }
    ensures more { OnOk result (length workers.new.threads.items ≡ length workers.old.threads.items + 1) }
    ensures count { workers.new.count ≡ workers.old.count }
{
    let Some(waker) = worker.waker() else {
        return Err(WorkerStartError);
    };
    let Ok(start) = Instant::now(rt) else {
        return Err(WorkerStartError);
    };
    let Ok((ours, theirs)) = both_ends(alloc, waker) else {
        return Err(WorkerStartError);
    };
    if workers.handovers.push(ours).is_err() {
        return Err(WorkerStartError);
    }
    let handle = *rt;
    let promise = HasServed {
        begun: Snapshot::of(&worker),
    };
    let fresh = Fresh { worker, start };
    match thread::spawn_with(rt, promise, move || run_whole(&handle, fresh, &theirs)) {
        Ok(thread) => match workers.threads.push(thread) {
            Ok(()) => Ok(()),
            Err(_) => Err(WorkerStartError),
        },
        Err(_) => Err(WorkerStartError),
    }
}

// A handover for the accepting thread, and for the worker.
fn both_ends<T: Drop, W: Wakes + Drop>(
    alloc: Global,
    waker: W,
) -> Result<(Arc<Handover<T, W>, Global>, Arc<Handover<T, W>, Global>), AllocError> {
    let ours = Arc::new(alloc, Handover::new(alloc, waker)?)?;
    let theirs = Arc::try_clone(&ours)?;
    Ok((ours, theirs))
}
