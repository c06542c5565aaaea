ghost use Rattle.std.specs.Prelude.{◌≡◌, ◌+◌, ◌/◌, List, IfErr, IfOk, IsErr, IsSome, MatchOption, OnOk, length, max, true};
ghost use Rattle.eventloop.specs.Working.{BeganWith};
ghost use Rattle.network.specs.Ports.{HasAccepted, HasCalled, PortEvent};
ghost use Rattle.network.specs.Times.{IsTimed};
ghost use Rattle.service.specs.Failures.{is_resource_failure};
ghost use Rattle.service.specs.Serving.{AreHandedOver, WereServed};
ghost use Rattle.service.specs.declared.logging.LoggedPoller.{LoggedPoller};
ghost use Rattle.turns.specs.declared.times.Timeouts.{Timeouts as Times};

use crate::flags::{Flag, IsSet, Left, Over, Stopped};
use crate::logging::LoggedPoller;
use crate::runtime::Runtime;
use crate::started::Starting;
use accesslog::{EndsEarly, LogQueue, LoggedTransport};
use commandline::Service;
use console::Failure;
use eventloop::{Capacity, Ending, Poller, Wakes, Worker, WorkerThreads, start_worker};
use httpedge::Asks;
use mapshare::{Reader, Sharing};
use network::{
    AcceptFailed, Accepting, Acceptor, Clients, Eviction, FULL_MILLISECONDS, IntoTransport, Plan,
    Port, PortFor, slots_of, timeouts_of,
};
use std::marker::PhantomData;
use std::thread::{self, Promise};
use std::time::Duration;
use turns::Transport;

/// The workers of clients.
type ClientWorkers<S, R, T, Q, W> = WorkerThreads<
    Reader<S>,
    LoggedTransport<T, R>,
    LoggedPoller<Q>,
    W,
>;

// The readers of the map, one for each worker, and the workers' pollers.
#[derive(Drop)]
struct Seats<S: Sharing, Q> {
    readers: Vec<Reader<S>>,
    pollers: Vec<Q>,
}

// Starts a worker for each reader, with a poller of its own.
fn start_all<S, R, T, Q>(
    rt: &R,
    workers: &mut ClientWorkers<S, R, T, Q, Q::Waker>,
    seats: Seats<S, Q>,
    capacity: Capacity,
) -> Result<(), Failure>
where
    S: Sharing + Send + Sync + 'static,
    R: Runtime,
    T: Transport + Send + Drop + 'static,
    Q: Poller<T> + Send + Drop + 'static,
    ensures failed { IfErr result (λ failure. is_resource_failure failure ≡ true) }
    ensures began { BeganWith capacity.timeouts workers.old.threads.items → BeganWith capacity.timeouts workers.new.threads.items }
    ensures all { OnOk result (length workers.new.threads.items ≡ length workers.old.threads.items + length seats.readers.items) }
    ensures count { workers.new.count ≡ workers.old.count }
{
    let Seats {
        mut readers,
        mut pollers,
    } = seats;
    while let Some(reader) = readers.pop() {
        let Some(poller) = pollers.pop() else {
            return Err(Failure::SocketFailed);
        };
        let poller = LoggedPoller { inner: poller };
        let Ok(worker) = Worker::new(rt.alloc(), reader, poller, capacity) else {
            return Err(Failure::NoMemory);
        };
        if start_worker(rt, rt.alloc(), workers, worker).is_err() {
            return Err(Failure::SocketFailed);
        }
    }
    Ok(())
}

/// The queue of a log for one more connection. Where the queue has too many ends, that connection isn't logged.
pub(crate) fn queue_of<R: Runtime>(log: &Option<LogQueue<R>>) -> Option<LogQueue<R>> {
    match log {
        Some(queue) => queue.share().ok(),
        None => None,
    }
}

// The connection of a number by calls that never wait, which is logged, if there is a log. There is none where such calls can't be made.
fn transport_of<R: Runtime, T: Transport, C: IntoTransport<T>>(
    rt: &R,
    connection: C,
    number: u64,
    log: &Option<LogQueue<R>>,
) -> Option<LoggedTransport<T, R>> {
    let transport = connection.into_transport()?;
    Some(LoggedTransport::new(rt.alloc(), transport, number, queue_of(log)))
}

// What the thread that accepts connections looks at: whether it has to stop, and the queue of the log, if there is one.
#[derive(Clone, Copy)]
struct Watched<'a, R> {
    is_stopped: &'a Flag<Stopped>,
    log: &'a Option<LogQueue<R>>,
}

// The next connection of a port, by one call, unless too many wait for their workers.
fn accept_next<A, C, T, P, Q, W, R>(
    rt: &R,
    port: &mut Accepting<P>,
    workers: &WorkerThreads<A, T, Q, W>,
) -> Option<Result<Option<C>, AcceptFailed>>
where
    A: Asks + Drop,
    R: Runtime,
    T: Transport + EndsEarly + Drop,
    P: Port<C>,
    Q: Drop,
    W: Wakes + Drop,
    ensures { MatchOption result (port.new ≡ port.old) (HasCalled (P.log port.old.port) (P.log port.new.port) port.old.remaining port.new.remaining) }
{
    if workers.has_place(rt) {
        return Some(port.accept());
    }
    thread::sleep(rt, Duration::from_millis(FULL_MILLISECONDS));
    None
}

// Of one worker, the next each time, evicts a connection, if one may be. Returns whether the port is given up, unless a client is served.
fn evict<A, T, Q, W, R>(rt: &R, workers: &mut WorkerThreads<A, T, Q, W>, eviction: Eviction) -> bool
where
    A: Asks + Drop,
    R: Runtime,
    T: Transport + EndsEarly + Drop,
    Q: Drop,
    W: Wakes + Drop,
    ensures last { result ≡ eviction.is_last }
    ensures threads { workers.new.threads ≡ workers.old.threads }
    ensures count { workers.new.count ≡ workers.old.count }
{
    workers.press(rt);
    eviction.after_eviction()
}

// Hands over the connections of clients to their workers, up to the last that is requested, or until the thread has to stop. Where a call for one
// fails, one that isn't being answered is evicted for it. The port is given up where 100 calls fail one after the other and no client is served. While
// many wait for their workers, none is accepted.
fn accept_all<S, R, C, T, P, Q, W>(
    rt: &R,
    port: &mut Accepting<PortFor<Clients, P>>,
    workers: &mut ClientWorkers<S, R, T, Q, W>,
    watched: Watched<'_, R>,
) -> Result<(), Failure>
where
    S: Sharing + Send + Sync + 'static,
    Q: Drop,
    R: Runtime,
    C: IntoTransport<T> + Send + Drop + 'static,
    T: Transport + Drop,
    P: Port<C>,
    W: Wakes + Drop,
    ensures accepted { (events : List PortEvent)
        × HasAccepted (P.log port.old.port.port) (P.log port.new.port.port) port.old.remaining port.new.remaining events
        × AreHandedOver workers.old.count events workers.new.count }
    ensures failed { IfErr result (λ failure. is_resource_failure failure ≡ true) }
    ensures threads { workers.new.threads ≡ workers.old.threads }
{
    let mut acceptor = Acceptor::new();
    for _ in rt.forever() {
        let accepted = accept_next(rt, port, workers);
        if watched.is_stopped.is_set() {
            return Ok(());
        }
        match acceptor.follow(accepted) {
            Plan::Wait => {}
            Plan::End => return Ok(()),
            Plan::HandOver { connection, number } => {
                let transport = transport_of::<R, T, C>(rt, connection, number, watched.log);
                workers.hand_over(rt, transport);
            }
            Plan::Evict(eviction) => {
                if evict(rt, workers, eviction) && !workers.is_serving(rt) {
                    return Err(Failure::SocketFailed);
                }
            }
        }
    }
    unreachable!()
}

/// The side of clients: their port, the pollers and the log.
#[derive(Drop)]
pub(crate) struct ClientSide<P, Q, R> {
    /// The connections of the port.
    pub port: Accepting<PortFor<Clients, P>>,
    /// A poller for each worker.
    pub pollers: Vec<Q>,
    /// The options of the service.
    pub service: Service,
    /// The log of clients, if there is one.
    pub log: Option<LogQueue<R>>,
}

// What each worker of a service has: its part of the connections, and how long these may take.
fn capacity_of(service: Service) -> Capacity
    ensures slots { result.slots ≡ 1024 / max service.workers 1 }
    ensures timed { IsTimed service result.timeouts }
{
    Capacity {
        slots: slots_of(service),
        timeouts: timeouts_of(service),
    }
}

// Starts a worker for each reader. Where one can't be started, those that were end.
fn start_workers<S, R, T, Q>(
    rt: &R,
    seats: Seats<S, Q>,
    service: Service,
) -> Result<ClientWorkers<S, R, T, Q, Q::Waker>, Failure>
where
    S: Sharing + Send + Sync + 'static,
    R: Runtime,
    T: Transport + Send + Drop + 'static,
    Q: Poller<T> + Send + Drop + 'static,
    ensures failed { IfErr result (λ failure. is_resource_failure failure ≡ true) }
    ensures began { IfOk result (λ workers. (times : Times) × IsTimed service times × BeganWith times workers.threads.items) }
    ensures all { IfOk result (λ workers. length workers.threads.items ≡ service.workers) }
{
    // the map was opened for as many readers
    if seats.readers.len() != usize::from(service.workers) {
        return Err(Failure::SocketFailed);
    }
    let capacity = capacity_of(service);
    let Ok(mut workers) = WorkerThreads::<
        Reader<S>,
        LoggedTransport<T, R>,
        LoggedPoller<Q>,
        Q::Waker,
    >::new(rt.alloc(), seats.readers.len()) else {
        return Err(Failure::NoMemory);
    };
    match start_all::<S, R, T, Q>(rt, &mut workers, seats, capacity) {
        Ok(()) => Ok(workers),
        Err(failure) => {
            let _ = workers.end(rt, Ending::Stops);
            Err(failure)
        }
    }
}

// How the workers end: the thread of clients has to stop, or no further client comes.
fn ending_of(is_stopped: &Flag<Stopped>) -> Ending {
    if is_stopped.is_set() {
        Ending::Stops
    } else {
        Ending::Finishes
    }
}

/// What the thread of clients tells, whether their workers were started, and the flag that has it stop.
#[derive(Clone, Copy)]
pub(crate) struct ClientFlags<'a> {
    /// Gets whether the workers were started.
    pub starting: &'a Starting,
    /// The thread has to stop.
    pub is_stopped: &'a Flag<Stopped>,
}

/// How the thread of clients ended, once it has told the thread of administrators.
#[derive(Drop)]
pub(crate) struct ClientsEnd {
    /// How it ended.
    pub outcome: Result<(), Failure>,
    /// The thread of administrators was told that the port of clients isn't served any more.
    pub left: IsSet<Left>,
    /// It was told that the service ends, if it was.
    pub over: Option<IsSet<Over>>,
}

/// The promise of the thread of clients: how it ends, whom it has told where it failed, and that its workers served, with these options.
#[derive(Drop)]
pub(crate) struct ServesClients<S, R, T, Q> {
    pub service: Service,
    pub of: PhantomData<(S, R, T, Q)>,
}

impl<S: Sharing, R: Runtime, T: Transport + Drop, Q> Promise<ClientsEnd>
    for ServesClients<S, R, T, Q> {
    ghost kept_by = { λ promise end. IfErr end.outcome (λ failure. is_resource_failure failure ≡ true)
        × (IsErr end.outcome → IsSome end.over)
        × WereServed (LoggedPoller Q) ⟦<LoggedTransport<T, R> as Transport>⟧ S.opening promise.service end.outcome };
}

/// Answers the connections of clients by a worker for each reader, up to the last. Those that came are answered to their end. Where the thread has to
/// stop, those that are being answered get their answers, and the others are closed. It tells whether the workers were started. Each of them answered
/// its connections, from none on, as a reader of the map that was opened, within the times of the service's options.
pub(crate) fn serve_clients<S, R, C, T, P, Q>(
    rt: &R,
    readers: Vec<Reader<S>>,
    side: ClientSide<P, Q, R>,
    flags: ClientFlags<'_>,
) -> Result<(), Failure>
where
    S: Sharing + Send + Sync + 'static,
    R: Runtime,
    C: IntoTransport<T> + Send + Drop + 'static,
    T: Transport + Send + Drop + 'static,
    P: Port<C> + Drop,
    Q: Poller<T> + Send + Drop + 'static,
    ensures failed { IfErr result (λ failure. is_resource_failure failure ≡ true) }
    ensures clients { WereServed (LoggedPoller Q) ⟦<LoggedTransport<T, R> as Transport>⟧ S.opening side.service result }
{
    let ClientSide {
        mut port,
        pollers,
        service,
        log,
    } = side;
    let started = start_workers::<S, R, T, Q>(rt, Seats { readers, pollers }, service);
    flags.starting.tell(rt, started.is_ok());
    let mut workers = started?;
    let watched = Watched {
        is_stopped: flags.is_stopped,
        log: &log,
    };
    let served = accept_all::<S, R, C, T, P, Q, Q::Waker>(rt, &mut port, &mut workers, watched);
    // from now on the system refuses further ones
    drop(port);
    match workers.end(rt, ending_of(flags.is_stopped)) {
        Some(_workers) => served,
        None => Err(served.err().unwrap_or(Failure::NoMemory)),
    }
}
