ghost use Rattle.std.specs.Prelude.{◌≡◌, ◌*◌, ◌/◌, max, option_map};
ghost use Rattle.std.specs.Duration.{as_nanos};
ghost use Rattle.std.specs.Time.{instant_nanos};
ghost use Rattle.network.specs.Times.{IsLeft, IsTimed};

use commandline::Service;
use std::io;
use std::rt::Clock;
use std::time::{Duration, Instant};
use turns::Timeouts;

/// How many timeouts an answer may take in all; for one of them it may stand still.
pub const ANSWER_TIMEOUTS: u32 = 20;

/// How many seconds a call of a connection waits, until it is made again or returns how many bytes were sent.
pub const CALL_SECONDS: u64 = 1;

/// For how many seconds in all the service reads what a client still sends after its answer.
pub const DRAIN_SECONDS: u64 = 2;

/// How many connections of clients are open at once, at most, over all workers.
pub const MAX_CONNECTIONS: usize = 1_024;

/// The least rate at which a client takes an answer, once the time of a head has passed, in bytes per millisecond.
pub const MIN_BYTES_PER_MILLI: u64 = 16;

/// How many milliseconds the service waits after a call for a connection has failed.
pub const FAILURE_MILLISECONDS: u64 = 10;

/// How many milliseconds the service waits while too many connections wait for their workers.
pub const FULL_MILLISECONDS: u64 = 5;

/// How many bytes of an answer a client may have to take before the system takes a further one: half of those that Linux keeps for a
/// connection, by its default. At the least rate they take 131 seconds.
pub const MAX_AHEAD_BYTES: u64 = 2_097_152;

/// How many seconds a command of an administrator may take.
pub const ADMINISTRATION_SECONDS: u64 = 600;

/// How many seconds the rest of a command may take while the service ends.
pub const ENDING_SECONDS: u64 = 10;

/// How many seconds an administrator may be silent while the service waits for its bytes.
pub const SILENT_SECONDS: u64 = 30;

/// How long a connection of a client may take, by the options of a service.
pub fn timeouts_of(service: Service) -> Timeouts
    ensures { IsTimed service result }
{
    let timeout = 1_000 * u64::from(service.timeout);
    Timeouts {
        idle: u64::from(service.idle),
        timeout,
        grace: timeout,
        rate: MIN_BYTES_PER_MILLI,
        drain: 1_000 * DRAIN_SECONDS,
        ahead: MAX_AHEAD_BYTES,
    }
}

/// How many connections a worker of a service has at most.
pub fn slots_of(service: Service) -> usize
    ensures { result ≡ 1024 / max service.workers 1 }
{
    MAX_CONNECTIONS / usize::from(service.workers.max(1))
}

/// How long the calls of a connection may wait, where its reads and writes wait, as an administrator's do.
#[derive(Clone, Copy)]
pub struct Waits {
    /// The first read after an answer.
    pub idle: Duration,
    /// Any read.
    pub silence: Duration,
    /// A command in all, from its first bytes on, or from the opening of its connection; and an answer of which nothing is
    /// taken.
    pub timeout: Duration,
}

impl Waits {
    /// The limits of an administrator.
    pub fn of_administration() -> Self
        ensures idle { as_nanos result.idle ≡ 1000000000 * 30 }
        ensures silence { as_nanos result.silence ≡ 1000000000 * 30 }
        ensures timeout { as_nanos result.timeout ≡ 1000000000 * 600 }
    {
        Waits {
            idle: Duration::from_secs(SILENT_SECONDS),
            silence: Duration::from_secs(SILENT_SECONDS),
            timeout: Duration::from_secs(ADMINISTRATION_SECONDS),
        }
    }
}

/// A time that began at an instant.
#[derive(Clone, Copy)]
pub struct TimeLimit {
    began: Instant,
    whole: Duration,
}

impl TimeLimit {
    /// A time of this length, which begins at an instant.
    pub fn new(began: Instant, whole: Duration) -> Self
        ensures { result ≡ record { began = began; whole = whole } }
    {
        TimeLimit { began, whole }
    }

    /// A time of this length, which begins now.
    pub fn start(clock: &impl Clock, whole: Duration) -> io::Result<Self> {
        Ok(TimeLimit::new(Instant::now(clock)?, whole))
    }

    /// The rest of it at an instant, if there is one.
    pub fn left_at(self, now: Instant) -> Option<Duration>
        ensures { IsLeft (instant_nanos self.began) (as_nanos self.whole) (instant_nanos now) (option_map as_nanos result) }
    {
        match self.whole.checked_sub(now.duration_since(self.began)) {
            Some(left) if !left.is_zero() => Some(left),
            _ => None,
        }
    }

    /// The rest of it now. The error is that it is over.
    pub fn left(self, clock: &impl Clock) -> io::Result<Duration> {
        match self.left_at(Instant::now(clock)?) {
            Some(left) => Ok(left),
            None => Err(io::Error::from(io::ErrorKind::TimedOut)),
        }
    }
}
