use crate::socket_transport::SocketTransport;
use eventloop::{MAX_EVENTS, Poller, Wakes};
use mio::{Events, Interest, Poll, Token, Waker};
use std::alloc::Global;
use std::io;
use std::time::Duration;

// The token of the waker. No slot has this number.
const WAKER: Token = Token(usize::MAX);

/// Ends a wait of a `SocketPoller`.
#[derive(Drop)]
pub struct PollWaker {
    waker: Waker,
}

impl Wakes for PollWaker {
    fn wake(&self) {
        // A wake that fails is made up for by the next look at the clock.
        let _ = self.waker.wake();
    }
}

/// Reports which connections of the machine may go on.
#[derive(Drop)]
pub struct SocketPoller {
    poll: Poll,
    events: Events<Global>,
}

impl SocketPoller {
    /// One that watches no connection. Its errors are those of the system, and that memory was refused.
    pub fn new(rt: &HostRuntime) -> io::Result<Self> {
        Ok(SocketPoller {
            poll: Poll::new(rt)?,
            events: Events::with_capacity(rt.alloc(), MAX_EVENTS)?,
        })
    }
}

impl Poller<SocketTransport> for SocketPoller {
    // (no contract says what a socket reports)
    ghost reported = { λ old slots new. Unit {0} };

    type Waker = PollWaker;

    fn waker(&self) -> Option<PollWaker> {
        match Waker::new(self.poll.registry(), WAKER) {
            Ok(waker) => Some(PollWaker { waker }),
            Err(_) => None,
        }
    }

    // The poller reports each change once, so it watches both sides from the start.
    fn register(&mut self, transport: &mut SocketTransport, slot: usize) -> bool {
        let both = Interest::READABLE | Interest::WRITABLE;
        self.poll
            .registry()
            .register(transport.stream(), Token(slot), both)
            .is_ok()
    }

    fn wait(&mut self, at_most: Duration, room: &mut [usize]) -> usize {
        if self.poll.poll(&mut self.events, Some(at_most)).is_err() {
            return 0;
        }
        let mut count = 0;
        for event in &self.events {
            if count == room.len() {
                return count;
            }
            let Token(slot) = event.token();
            room[count] = slot;
            count += 1;
        }
        count
    }
}
