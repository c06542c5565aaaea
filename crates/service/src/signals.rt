//! The signals between the threads of a service: that no more clients are served, and that the input ended.

ghost use Rattle.std.specs.Prelude.{◌≡◌, IfErr, IfOk, true};
ghost use Rattle.service.specs.Failures.{is_resource_failure};

use crate::flags::{Flag, IsSet, Left, Over, Stopped, Unread};
use crate::runtime::Runtime;
use crate::started::Starting;
use console::Failure;
use eventloop::Wakes;
use network::Until;
use std::alloc::{AllocError, Global};
use std::io::{ErrorKind, Read};
use std::sync::Arc;
use std::thread;

/// The signal to the thread that accepts the connections of a port that it has to stop: a flag of the purpose K is set.
#[derive(Drop)]
pub(crate) struct StopSignal<K, W: Wakes> {
    flag: Arc<Flag<K>, Global>,
    // The waker of its wait for a connection, if the port knows its address.
    waker: Option<W>,
}

impl<K, W: Wakes> StopSignal<K, W> {
    /// Gives the signal, and ends the wait for a connection.
    pub fn give(&self) -> IsSet<K> {
        let is_set = self.flag.set();
        if let Some(waker) = &self.waker {
            waker.wake();
        }
        is_set
    }
}

/// The signal that the thread of clients gets, and the one that it gives.
#[derive(Drop)]
pub(crate) struct ClientSignals<W: Wakes> {
    /// It has to stop.
    pub is_stopped: Arc<Flag<Stopped>, Global>,
    /// No more clients are served.
    pub is_over: StopSignal<Over, W>,
    /// Their port isn't served any more.
    pub is_left: Arc<Flag<Left>, Global>,
    /// Whether their workers were started.
    pub starting: Arc<Starting, Global>,
}

// Reads an input to its end, and returns whether no read failed.
fn read_out<I: Read>(input: &mut I) -> bool {
    let mut room = [0; 1_024];
    for _ in 0..u64::MAX {
        match input.read(&mut room) {
            Ok(0) => return true,
            Err(error) if error.kind() != ErrorKind::Interrupted => return false,
            _ => {}
        }
    }
    true
}

// The end of an input: the signal that it gives, and the flag that it sets where the input could not be read to its end.
#[derive(Drop)]
struct InputEnd<W: Wakes> {
    stop: StopSignal<Stopped, W>,
    has_failed: Arc<Flag<Unread>, Global>,
}

// Waits for the end of an input, and then has the thread of clients stop. An input that fails has ended, and the
// failure is noted.
fn watch<W: Wakes, I: Read + Drop>(mut input: I, end: &InputEnd<W>) {
    if !read_out(&mut input) {
        end.has_failed.set();
    }
    end.stop.give();
}

// The flags that the end of an input sets: that the thread of clients has to stop, and that the input could not be read to its end.
#[derive(Drop)]
struct InputFlags {
    is_stopped: Arc<Flag<Stopped>, Global>,
    has_failed: Arc<Flag<Unread>, Global>,
}

// Starts the thread that waits for the end of an input, if there is one.
fn start_watch<R, W, I>(
    rt: &R,
    until: Option<Until<W, I>>,
    flags: InputFlags,
) -> Result<(), Failure>
where
    R: Runtime,
    W: Wakes + Send + Drop + 'static,
    I: Read + Send + Drop + 'static,
    ensures failed { IfErr result (λ failure. is_resource_failure failure ≡ true) }
{
    let Some(Until { waker, input }) = until else {
        return Ok(());
    };
    let InputFlags {
        is_stopped,
        has_failed,
    } = flags;
    let end = InputEnd {
        stop: StopSignal {
            flag: is_stopped,
            waker: Some(waker),
        },
        has_failed,
    };
    match thread::spawn(rt, move || watch(input, &end)) {
        Ok(child) => {
            // it goes on where the service ends before the input does
            drop(child);
            Ok(())
        }
        Err(_) => Err(Failure::SocketFailed),
    }
}

/// The signals between the threads of a service.
#[derive(Drop)]
pub(crate) struct Signals<W: Wakes> {
    /// The signals of the thread of clients.
    pub clients: ClientSignals<W>,
    /// No more clients are served.
    pub is_over: Arc<Flag<Over>, Global>,
    /// The port of clients isn't served any more.
    pub is_left: Arc<Flag<Left>, Global>,
    /// Whether the workers of clients were started.
    pub starting: Arc<Starting, Global>,
    /// Has the thread of clients stop.
    pub stop: StopSignal<Stopped, W>,
    /// The input with whose end the service ends could not be read.
    pub has_failed: Arc<Flag<Unread>, Global>,
}

/// The wakers of a service, and the input whose end ends it.
#[derive(Drop)]
pub(crate) struct Wakers<W, I> {
    /// The waker of a wait for an administrator.
    pub administration: Option<W>,
    /// The waker of a wait for a client.
    pub clients: Option<W>,
    /// The input whose end ends the service, if there is one.
    pub until: Option<Until<W, I>>,
}

// What two threads share, each its end of it.
#[derive(Drop)]
struct Ends<T> {
    ours: Arc<T, Global>,
    theirs: Arc<T, Global>,
}

impl<T> Ends<T> {
    // Both ends of a value.
    fn of(alloc: Global, value: T) -> Result<Self, AllocError>
    where
        T: Drop,
    {
        let ours = Arc::new(alloc, value)?;
        let theirs = Arc::try_clone(&ours)?;
        Ok(Ends { ours, theirs })
    }
}

// What the threads of a service share.
#[derive(Drop)]
struct SharedFlags {
    is_over: Ends<Flag<Over>>,
    is_left: Ends<Flag<Left>>,
    starting: Ends<Starting>,
    is_stopped: Ends<Flag<Stopped>>,
    has_failed: Arc<Flag<Unread>, Global>,
}

impl SharedFlags {
    // Nothing is told yet. The flags for the end of the input stand beside the others.
    fn new(alloc: Global) -> Result<(Self, InputFlags), AllocError> {
        let is_stopped = Ends::of(alloc, Flag::new())?;
        let has_failed = Ends::of(alloc, Flag::new())?;
        let at_end = InputFlags {
            is_stopped: Arc::try_clone(&is_stopped.ours)?,
            has_failed: has_failed.theirs,
        };
        let flags = SharedFlags {
            is_over: Ends::of(alloc, Flag::new())?,
            is_left: Ends::of(alloc, Flag::new())?,
            starting: Ends::of(alloc, Starting::new())?,
            is_stopped,
            has_failed: has_failed.ours,
        };
        Ok((flags, at_end))
    }

    // The signals by these flags, and the wakers of the two ports.
    fn into_signals<W: Wakes>(self, administration: Option<W>, clients: Option<W>) -> Signals<W>
        ensures { (result.clients.is_over.waker ≡ administration) × (result.stop.waker ≡ clients) }
    {
        let SharedFlags {
            is_over,
            is_left,
            starting,
            is_stopped,
            has_failed,
        } = self;
        Signals {
            clients: ClientSignals {
                is_stopped: is_stopped.theirs,
                is_over: StopSignal {
                    flag: is_over.theirs,
                    waker: administration,
                },
                is_left: is_left.theirs,
                starting: starting.theirs,
            },
            is_over: is_over.ours,
            is_left: is_left.ours,
            starting: starting.ours,
            stop: StopSignal {
                flag: is_stopped.ours,
                waker: clients,
            },
            has_failed,
        }
    }
}

/// The signals between the threads of a service.
pub(crate) fn signals_of<R, W, I>(rt: &R, wakers: Wakers<W, I>) -> Result<Signals<W>, Failure>
where
    R: Runtime,
    W: Wakes + Send + Drop + 'static,
    I: Read + Send + Drop + 'static,
    ensures failed { IfErr result (λ failure. is_resource_failure failure ≡ true) }
    ensures wakers { IfOk result (λ signals. (signals.clients.is_over.waker ≡ wakers.administration) × (signals.stop.waker ≡ wakers.clients)) }
{
    let Wakers {
        administration,
        clients,
        until,
    } = wakers;
    if administration.is_none() {
        return Err(Failure::SocketFailed);
    }
    let Ok((flags, at_end)) = SharedFlags::new(rt.alloc()) else {
        return Err(Failure::NoMemory);
    };
    start_watch(rt, until, at_end)?;
    Ok(flags.into_signals(administration, clients))
}
