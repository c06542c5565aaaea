use std::rt::Clock;
use std::time::Instant;
use turns::TurnClock;

/// The clock of a worker: how many milliseconds have passed since it began.
#[derive(Drop)]
pub(crate) struct WorkerClock<'a, R> {
    /// The runtime, whose clock it reads.
    pub rt: &'a R,
    /// When the worker began.
    pub start: Instant,
}

impl<R: Clock> TurnClock for WorkerClock<'_, R> {
    ghost shows = { λ _ _. Unit {0} };

    // Where the clock of the runtime can't be read, none have passed.
    fn moment(&self) -> u64 {
        match self.start.elapsed(self.rt) {
            Ok(passed) => u64::try_from(passed.as_millis()).unwrap_or(u64::MAX),
            Err(_) => 0,
        }
    }
}
