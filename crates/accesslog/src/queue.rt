//! The lines that wait to be written.

use crate::line::dropped_line;
use crossbeam_queue::ArrayQueue;
use std::alloc::{AllocError, Global};
use std::rt::Clock;
use std::sync::atomic::{AtomicBool, AtomicU64, Ordering};
use std::sync::{Arc, Wait};
use std::time::Instant;

/// How many lines wait to be written, at most.
pub const MAX_LINES: usize = 4_096;

// What the ends of a queue share.
#[derive(Drop)]
struct Shared {
    lines: ArrayQueue<Vec<u8>>,
    dropped: AtomicU64,
    is_ended: AtomicBool,
}

/// An end of the queue of a log. Many threads put lines into it, and none of them waits: a line for which there is no room is
/// dropped, and counted.
#[derive(Drop)]
pub struct LogQueue<R> {
    rt: R,
    began: Instant,
    shared: Arc<Shared, Global>,
}

impl<R: Clock + Wait + Copy> LogQueue<R> {
    /// A queue without a line. There is none where memory is refused, or there is no clock.
    pub fn new(rt: &R, alloc: Global) -> Option<Self> {
        let Ok(began) = Instant::now(rt) else {
            return None;
        };
        match shared_of(alloc) {
            Ok(shared) => Some(LogQueue {
                rt: *rt,
                began,
                shared,
            }),
            Err(_) => None,
        }
    }

    /// The same queue for another thread. The error is that it has too many ends.
    pub fn share(&self) -> Result<Self, AllocError> {
        Ok(LogQueue {
            rt: self.rt,
            began: self.began,
            shared: Arc::try_clone(&self.shared)?,
        })
    }

    /// How many milliseconds have passed since it was made.
    pub fn now(&self) -> u64 {
        match self.began.elapsed(&self.rt) {
            Ok(passed) => u64::try_from(passed.as_millis()).unwrap_or(u64::MAX),
            Err(_) => 0,
        }
    }

    /// Puts a line that is to be written. One that wasn't made, or for which there is no room, is counted.
    pub fn put(&self, line: Option<Vec<u8>>) {
        let is_put = match line {
            Some(line) => self.shared.lines.push(&self.rt, line).is_ok(),
            None => false,
        };
        if !is_put {
            self.shared.dropped.fetch_add(1, Ordering::SeqCst);
        }
    }

    /// Ends the queue: no further line comes.
    pub fn end(&self) {
        self.shared.is_ended.store(true, Ordering::SeqCst);
    }

    /// Whether no further line comes.
    pub fn is_ended(&self) -> bool {
        self.shared.is_ended.load(Ordering::SeqCst)
    }

    /// The next line that waits. Where lines were dropped, it is the line on these.
    pub fn take(&self, alloc: Global) -> Option<Vec<u8>> {
        let dropped = self.shared.dropped.swap(0, Ordering::SeqCst);
        if dropped > 0 {
            return dropped_line(alloc, dropped).ok();
        }
        self.shared.lines.pop(&self.rt)
    }
}

// A queue without a line.
fn shared_of(alloc: Global) -> Result<Arc<Shared, Global>, AllocError> {
    Ok(Arc::new(
        alloc,
        Shared {
            lines: ArrayQueue::new(alloc, MAX_LINES)?,
            dropped: AtomicU64::new(0),
            is_ended: AtomicBool::new(false),
        },
    )?)
}
