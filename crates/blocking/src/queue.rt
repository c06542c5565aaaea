use std::alloc::Global;
use std::collections::VecDeque;
use std::sync::{Condvar, Mutex, Wait};

// The state of the queue of one worker.
#[derive(Drop)]
struct QueueState<T> {
    waiting: VecDeque<T>,
    closed: bool,
}

/// Connections that wait for one worker, in the order in which they came.
#[derive(Drop)]
pub(crate) struct Queue<T: Drop> {
    state: Mutex<QueueState<T>>,
    changed: Condvar,
}

impl<T: Drop> Queue<T> {
    /// An empty one. It takes no memory.
    pub fn new(alloc: Global) -> Self {
        Queue {
            state: Mutex::new(QueueState {
                waiting: VecDeque::new(alloc),
                closed: false,
            }),
            changed: Condvar::new(),
        }
    }

    /// Puts a connection at the end, or returns it where memory for it is refused.
    pub fn put<R: Wait>(&self, rt: &R, item: T) -> Result<(), T> {
        let mut state = self.state.lock(rt);
        match state.waiting.push_back(item) {
            Ok(()) => {
                self.changed.notify_one();
                Ok(())
            }
            Err(failed) => Err(failed.value),
        }
    }

    /// Closes the queue: no more is put.
    pub fn close<R: Wait>(&self, rt: &R) {
        let mut state = self.state.lock(rt);
        state.closed = true;
        self.changed.notify_all();
    }

    /// Waits for a connection. There is none where the queue is closed and empty.
    pub fn take<R: Wait>(&self, rt: &R) -> Option<T> {
        let mut state = self.changed.wait_while(rt, self.state.lock(rt), |state| {
            state.waiting.is_empty() && !state.closed
        });
        state.waiting.pop_front()
    }
}
