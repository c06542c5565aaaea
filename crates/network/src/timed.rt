ghost use Rattle.std.specs.Prelude.{◌≡◌, true};

use crate::closing::Closing;
use crate::limits::{ANSWER_TIMEOUTS, CALL_SECONDS, ENDING_SECONDS, TimeLimit, Waits};
use std::alloc::{AllocError, Global};
use std::io::{self, ErrorKind, Read, Write};
use std::net::{OpenStream, Shutdown};
use std::rt::Clock;
use std::sync::Arc;
use std::sync::atomic::{AtomicBool, Ordering};
use std::time::Duration;

// How often a call is made again that a signal interrupted.
const MAX_TRIES: u32 = 1_000;

/// The flag that the two sides of a connection share: whether an answer was written since the last read.
#[derive(Drop)]
pub struct AnswerWritten {
    is_set: Arc<AtomicBool, Global>,
}

impl AnswerWritten {
    /// Both ends of one, where nothing was written. The error is that memory was refused.
    pub fn pair(alloc: Global) -> Result<(AnswerWritten, AnswerWritten), AllocError> {
        let is_set = Arc::new(alloc, AtomicBool::new(false))?;
        let other = Arc::try_clone(&is_set)?;
        Ok((AnswerWritten { is_set }, AnswerWritten { is_set: other }))
    }
}

// The flag where a stream is to end, if it may.
#[derive(Drop)]
struct Ending {
    flag: Option<Arc<AtomicBool, Global>>,
}

impl Ending {
    // Whether the flag is set.
    fn is_set(&self) -> bool {
        match &self.flag {
            Some(flag) => flag.load(Ordering::SeqCst),
            None => false,
        }
    }
}

// How far the command at hand is.
#[derive(Clone, Copy)]
enum CommandPhase {
    // Nothing of it came, and its time runs.
    Awaited,
    // Nothing of it came since the last answer, and the time of an idle connection runs.
    Idle,
    // Bytes of it came, and it isn't answered yet.
    Begun,
    // The same, and its time was cut, as the stream ends.
    Cut,
}

/// The bytes of an administrator, with limits of time. The time of a command begins with its first bytes, that of the first command
/// with the opening of the connection. Each read waits for the rest of that time, and no longer than the administrator may be
/// silent. The first read after an answer waits for the time of an idle connection.
#[derive(Drop)]
pub struct TimedReader<S, C> {
    stream: S,
    clock: C,
    waits: Waits,
    answered: AnswerWritten,
    limit: TimeLimit,
    phase: CommandPhase,
    // Where it is set, the stream ends with the command at hand.
    ending: Ending,
}

impl<S, C: Clock> TimedReader<S, C> {
    /// A stream whose first command begins now.
    pub fn start(stream: S, clock: C, waits: Waits, answered: AnswerWritten) -> io::Result<Self>
    where
        S: Drop,
        C: Drop,
    {
        Ok(TimedReader {
            limit: TimeLimit::start(&clock, waits.timeout)?,
            stream,
            clock,
            waits,
            answered,
            phase: CommandPhase::Awaited,
            ending: Ending { flag: None },
        })
    }

    /// The same stream, which ends where the flag is set: after the command at hand, where nothing of it comes for a second, or when
    /// its rest takes too long.
    pub fn until(mut self, is_ending: Arc<AtomicBool, Global>) -> Self {
        self.ending = Ending {
            flag: Some(is_ending),
        };
        self
    }

    // How long the next read may wait: not longer than a second, where the stream may end by the flag.
    fn next_wait(&self, silence: TimeLimit) -> io::Result<Duration> {
        let left = self
            .limit
            .left(&self.clock)?
            .min(silence.left(&self.clock)?);
        match self.ending.flag {
            Some(_) => Ok(left.min(Duration::from_secs(CALL_SECONDS))),
            None => Ok(left),
        }
    }

    // Whether the stream ends before the next read. The command at hand has some time more.
    fn has_ended(&mut self) -> io::Result<bool> {
        if !self.ending.is_set() {
            return Ok(false);
        }
        match self.phase {
            CommandPhase::Awaited | CommandPhase::Idle => Ok(true),
            CommandPhase::Begun => {
                self.limit = TimeLimit::start(&self.clock, Duration::from_secs(ENDING_SECONDS))?;
                self.phase = CommandPhase::Cut;
                Ok(false)
            }
            CommandPhase::Cut => Ok(false),
        }
    }

    /// Begins another time now, whatever was answered. Without a clock the time stays as it is.
    pub fn limit(&mut self, whole: Duration) {
        if let Ok(limit) = TimeLimit::start(&self.clock, whole) {
            self.answered.is_set.store(false, Ordering::SeqCst);
            if let CommandPhase::Idle = self.phase {
                self.phase = CommandPhase::Awaited;
            }
            self.limit = limit;
        }
    }

    // Begins the time of an idle connection, where an answer was written.
    fn rest(&mut self) -> io::Result<()> {
        if self.answered.is_set.swap(false, Ordering::SeqCst) {
            self.limit = TimeLimit::start(&self.clock, self.waits.idle)?;
            self.phase = CommandPhase::Idle;
        }
        Ok(())
    }

    // Begins the time of a command, whose first bytes came.
    fn begin(&mut self) -> io::Result<()> {
        if let CommandPhase::Idle = self.phase {
            self.limit = TimeLimit::start(&self.clock, self.waits.timeout)?;
        }
        self.phase = match self.phase {
            CommandPhase::Cut => CommandPhase::Cut,
            _ => CommandPhase::Begun,
        };
        Ok(())
    }
}

impl<S: Read + OpenStream, C: Clock> Read for TimedReader<S, C> {
    fn read(&mut self, room: &mut [u8]) -> io::Result<usize> {
        self.rest()?;
        if self.has_ended()? {
            return Ok(0);
        }
        let silence = TimeLimit::start(&self.clock, self.waits.silence)?;
        for _ in 0..MAX_TRIES {
            let wait = self.next_wait(silence)?;
            self.stream.set_read_timeout(Some(wait))?;
            match self.stream.read(room) {
                Err(error) if error.kind() == ErrorKind::Interrupted => {}
                Err(error) if moved_nothing(&error) && self.ending.is_set() => return Ok(0),
                Err(error) if moved_nothing(&error) && self.ending.flag.is_some() => {}
                read => {
                    self.begin()?;
                    return read;
                }
            }
        }
        Err(io::Error::from(ErrorKind::TimedOut))
    }
}

/// The answers to an administrator, with limits of time. An answer may stand still for a time, and has another in all, which begins
/// with the first write after a read. So a write waits for a second at most, and is made again while none of its bytes were sent.
#[derive(Drop)]
pub struct TimedWriter<S, C> {
    stream: S,
    clock: C,
    waits: Waits,
    answered: AnswerWritten,
    limit: Option<TimeLimit>,
    // The time since bytes were last sent.
    still: Option<TimeLimit>,
    is_shut: bool,
    // Where it is set, a write that waits for a second fails.
    ending: Ending,
}

impl<S, C> TimedWriter<S, C> {
    /// A stream to which nothing is written yet.
    pub fn new(stream: S, clock: C, waits: Waits, answered: AnswerWritten) -> Self {
        TimedWriter {
            stream,
            clock,
            waits,
            answered,
            limit: None,
            still: None,
            is_shut: false,
            ending: Ending { flag: None },
        }
    }

    /// The same stream, of which a write fails that waits for a second while the flag is set.
    pub fn until(mut self, is_ending: Arc<AtomicBool, Global>) -> Self {
        self.ending = Ending {
            flag: Some(is_ending),
        };
        self
    }
}

// The rest of a time, which begins now if it hasn't begun.
fn left_of<C: Clock>(
    limit: &mut Option<TimeLimit>,
    clock: &C,
    whole: Duration,
) -> io::Result<Duration> {
    let begun = match *limit {
        Some(begun) => begun,
        None => TimeLimit::start(clock, whole)?,
    };
    *limit = Some(begun);
    begun.left(clock)
}

impl<S, C: Clock> TimedWriter<S, C> {
    // How long the next write may wait.
    fn next_wait(&mut self) -> io::Result<Duration> {
        let whole = self.waits.timeout.saturating_mul(ANSWER_TIMEOUTS);
        let left = left_of(&mut self.limit, &self.clock, whole)?;
        let still = left_of(&mut self.still, &self.clock, self.waits.timeout)?;
        Ok(left.min(still).min(Duration::from_secs(CALL_SECONDS)))
    }

    // Begins the times of an answer, where something was read since the last one.
    fn begin(&mut self) {
        if !self.answered.is_set.swap(true, Ordering::SeqCst) {
            self.limit = None;
            self.still = None;
        }
    }
}

// Whether a call failed because it had waited as long as it may, or because of a signal.
fn moved_nothing(error: &io::Error) -> bool {
    matches!(
        error.kind(),
        ErrorKind::Interrupted | ErrorKind::WouldBlock | ErrorKind::TimedOut
    )
}

impl<S: Write + OpenStream, C: Clock> Write for TimedWriter<S, C> {
    fn write(&mut self, bytes: &[u8]) -> io::Result<usize> {
        self.begin();
        for _ in 0..MAX_TRIES {
            let wait = self.next_wait()?;
            self.stream.set_write_timeout(Some(wait))?;
            match self.stream.write(bytes) {
                Err(error) if moved_nothing(&error) && self.ending.is_set() => return Err(error),
                Err(error) if moved_nothing(&error) => {}
                written => {
                    self.still = None;
                    return written;
                }
            }
        }
        Err(io::Error::from(ErrorKind::TimedOut))
    }

    fn flush(&mut self) -> io::Result<()> {
        Ok(())
    }
}

impl<S: OpenStream, C> Closing for TimedWriter<S, C> {
    ghost is_shut = { λ w. w.is_shut };

    fn shut(&mut self) {
        // Where that fails the client has gone.
        let _ = self.stream.shutdown(Shutdown::Write);
        self.is_shut = true;
    }
}
