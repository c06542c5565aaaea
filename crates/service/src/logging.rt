//! The log of a service: the thread that writes it, and the poller of connections that are logged.

ghost use Rattle.std.specs.Prelude.{◌≡◌, IfErr, true};
ghost use Rattle.service.specs.Failures.{is_resource_failure};

use crate::runtime::Runtime;
use accesslog::{LogQueue, LoggedTransport};
use console::Failure;
use eventloop::Poller;
use std::alloc::{AllocError, Global};
use std::str;
use std::sync::Arc;
use std::sync::atomic::{AtomicBool, Ordering};
use std::thread::{self, JoinHandle};
use std::time::Duration;

// How many milliseconds the thread of the log waits for a line, and the end of the log for that thread.
const PAUSE_MILLIS: u64 = 20;

// How often the end of the log waits: two seconds in all.
const END_TRIES: u32 = 100;

/// A poller of transports that are logged.
#[derive(Drop)]
pub struct LoggedPoller<Q> {
    /// The poller of the transports within.
    pub inner: Q,
}

impl<T, R, Q: Poller<T>> Poller<LoggedTransport<T, R>> for LoggedPoller<Q> {
    ghost reported = { λ old slots new. Q.reported old.inner slots new.inner };

    type Waker = Q::Waker;

    fn waker(&self) -> Option<Q::Waker> {
        self.inner.waker()
    }

    fn register(&mut self, transport: &mut LoggedTransport<T, R>, slot: usize) -> bool {
        self.inner.register(transport.inner(), slot)
    }

    fn wait(&mut self, at_most: Duration, room: &mut [usize]) -> usize {
        self.inner.wait(at_most, room)
    }
}

// Writes the lines that wait.
fn write_waiting<R: Runtime>(rt: &R, queue: &LogQueue<R>) {
    for _ in 0..u64::MAX {
        let Some(line) = queue.take(rt.alloc()) else {
            return;
        };
        // Where standard error fails, nobody reads the log.
        let _ = eprint!(rt; "{}", str::from_utf8(&line).unwrap_or(""));
    }
}

// Writes the lines of a log up to its end, and sets the flag then.
fn write_log<R: Runtime>(rt: &R, queue: &LogQueue<R>, is_written: &AtomicBool) {
    for _ in rt.forever() {
        let is_ended = queue.is_ended();
        write_waiting(rt, queue);
        if is_ended {
            is_written.store(true, Ordering::SeqCst);
            return;
        }
        thread::sleep(rt, Duration::from_millis(PAUSE_MILLIS));
    }
    unreachable!()
}

// A flag that isn't set, for two threads.
fn flag_of(
    alloc: Global,
) -> Result<(Arc<AtomicBool, Global>, Arc<AtomicBool, Global>), AllocError> {
    let ours = Arc::new(alloc, AtomicBool::new(false))?;
    let theirs = Arc::try_clone(&ours)?;
    Ok((ours, theirs))
}

/// A log, and the thread that writes it.
#[derive(Drop)]
pub(crate) struct Log<R> {
    queue: LogQueue<R>,
    thread: JoinHandle<()>,
    // The thread has written all lines.
    is_written: Arc<AtomicBool, Global>,
}

impl<R: Runtime> Log<R> {
    /// Starts the thread of a log.
    pub fn start(rt: &R) -> Result<Self, Failure>
        ensures failed { IfErr result (λ failure. is_resource_failure failure ≡ true) }
    {
        let Some(queue) = LogQueue::new(rt, rt.alloc()) else {
            return Err(Failure::NoMemory);
        };
        let Ok(theirs) = queue.share() else {
            return Err(Failure::NoMemory);
        };
        let Ok((is_written, flag)) = flag_of(rt.alloc()) else {
            return Err(Failure::NoMemory);
        };
        let handle = *rt;
        match thread::spawn(rt, move || write_log(&handle, &theirs, &flag)) {
            Ok(thread) => Ok(Log {
                queue,
                thread,
                is_written,
            }),
            Err(_) => Err(Failure::SocketFailed),
        }
    }

    /// Its queue, for another thread.
    pub fn queue(&self) -> Result<LogQueue<R>, Failure>
        ensures failed { IfErr result (λ failure. is_resource_failure failure ≡ true) }
    {
        match self.queue.share() {
            Ok(queue) => Ok(queue),
            Err(_) => Err(Failure::NoMemory),
        }
    }

    /// Writes the lines that wait, and ends. Where they aren't written for seconds, as nobody reads them, it ends without them: the
    /// thread ends with the program.
    pub fn end(self, rt: &R) {
        let Log {
            queue,
            thread,
            is_written,
        } = self;
        queue.end();
        for _ in 0..END_TRIES {
            if is_written.load(Ordering::SeqCst) {
                thread.join(rt);
                return;
            }
            thread::sleep(rt, Duration::from_millis(PAUSE_MILLIS));
        }
        drop(thread);
    }
}

/// The logs of clients and of administrators, each if there is one.
#[derive(Drop)]
pub(crate) struct Logs<R> {
    /// That of clients.
    pub clients: Option<LogQueue<R>>,
    /// That of administrators.
    pub administration: Option<LogQueue<R>>,
}

impl<R> Logs<R> {
    /// No log is kept.
    pub fn none() -> Self {
        Logs {
            clients: None,
            administration: None,
        }
    }
}

/// Starts a log for both.
pub(crate) fn start_log<R: Runtime>(rt: &R) -> Result<(Log<R>, Logs<R>), Failure>
    ensures failed { IfErr result (λ failure. is_resource_failure failure ≡ true) }
{
    let log = Log::start(rt)?;
    match (log.queue(), log.queue()) {
        (Ok(clients), Ok(administration)) => Ok((
            log,
            Logs {
                clients: Some(clients),
                administration: Some(administration),
            },
        )),
        _ => {
            log.end(rt);
            Err(Failure::NoMemory)
        }
    }
}
