//! Whether the workers of a service were started, as the thread of clients tells that of administrators.

use std::sync::{Condvar, Mutex, Wait};

/// Tells one thread whether the workers were started by another.
#[derive(Drop)]
pub(crate) struct Starting {
    // Whether they were, once that is known.
    has_started: Mutex<Option<bool>>,
    told: Condvar,
}

impl Starting {
    /// Nothing is known yet.
    pub fn new() -> Self {
        Starting {
            has_started: Mutex::new(None),
            told: Condvar::new(),
        }
    }

    /// Tells whether they were started.
    pub fn tell<R: Wait>(&self, rt: &R, has_started: bool) {
        *self.has_started.lock(rt) = Some(has_started);
        self.told.notify_all();
    }

    /// Waits until that is known, and returns whether they were.
    pub fn wait<R: Wait>(&self, rt: &R) -> bool {
        let known = self
            .told
            .wait_while(rt, self.has_started.lock(rt), |known| known.is_none());
        known.unwrap_or(false)
    }
}
