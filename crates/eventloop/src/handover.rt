use crate::handed_over::{Ending, HandedOver};
use crate::orders::Orders;
use crate::poller::Wakes;
use std::alloc::{AllocError, Global};
use std::sync::{Mutex, Wait};

/// How many connections wait for their workers at most, in all. While so many wait, no further one is accepted.
pub const MAX_WAITING: usize = 1_024;

/// Connections on their way to a worker, which is woken for each. Each call locks what both sides share, and makes one call of it: so they come
/// to the worker in their order, each once.
#[derive(Drop)]
pub struct Handover<T: Drop, W> {
    state: Mutex<HandedOver<T>>,
    waker: W,
}

impl<T: Drop, W: Wakes> Handover<T, W> {
    /// One to the worker of this waker. Its error is that memory was refused.
    pub fn new(alloc: Global, waker: W) -> Result<Self, AllocError>
    where
        W: Drop,
    {
        Ok(Handover {
            state: Mutex::new(HandedOver::new(alloc)?),
            waker,
        })
    }

    /// Hands over a connection, behind those that wait, without a wait. It is returned where memory is refused.
    pub fn put<R: Wait>(&self, rt: &R, transport: T) -> Result<(), T> {
        self.state.lock(rt).put(transport)?;
        self.waker.wake();
        Ok(())
    }

    /// The next connection, if one waits.
    pub fn take<R: Wait>(&self, rt: &R) -> Option<T> {
        self.state.lock(rt).take()
    }

    /// How many connections wait.
    pub fn waiting<R: Wait>(&self, rt: &R) -> usize {
        self.state.lock(rt).waiting()
    }

    /// Whether a connection waits.
    pub fn has_waiting<R: Wait>(&self, rt: &R) -> bool {
        self.waiting(rt) > 0
    }

    /// The worker ends, in one way or the other. A worker that stops never goes back to finishing.
    pub fn end<R: Wait>(&self, rt: &R, ending: Ending) {
        self.state.lock(rt).end(ending);
        self.waker.wake();
    }

    /// A further connection needs a descriptor: the connection gives way that comes first, if one may.
    pub fn press<R: Wait>(&self, rt: &R) {
        self.state.lock(rt).press();
        self.waker.wake();
    }

    /// What the worker is to do now. The call resets the need for a descriptor.
    pub fn orders<R: Wait>(&self, rt: &R) -> Orders {
        self.state.lock(rt).orders()
    }

    /// Whether the worker has connections, or some wait for it.
    pub fn is_serving<R: Wait>(&self, rt: &R) -> bool {
        self.state.lock(rt).is_serving()
    }

    /// Notes that the worker has connections, or none.
    pub fn note_serving<R: Wait>(&self, rt: &R, has_connections: bool) {
        self.state.lock(rt).note_serving(has_connections);
    }
}
