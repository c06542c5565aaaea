ghost use Rattle.std.specs.Prelude.{◌≡◌, ◌≤◌, ℕ, List, length, take};

use std::time::Duration;

/// A waker: it ends a wait.
pub trait Wakes {
    /// Ends the wait.
    fn wake(&self);
}

/// Reports to a worker which of its connections may go on.
pub trait Poller<T> {
    /// The waker of its wait.
    type Waker: Wakes + Send + Sync + Drop + 'static;

    /// A wait reported these slots.
    ghost reported: { Self → List ℕ → Self → Type 0 };

    /// The waker of its wait, if there is one.
    fn waker(&self) -> Option<Self::Waker>;

    /// Watches a connection at its slot from now on. Returns whether it does.
    fn register(&mut self, transport: &mut T, slot: usize) -> bool;

    /// Waits until a connection may go on, until it is woken, or for so long. The slots of such connections are the first in
    /// `room`, and the call returns their number; other slots may be among them. A slot is reported once for each change, so
    /// none may be lost because room is missing: `room` has `MAX_EVENTS` slots.
    fn wait(&mut self, at_most: Duration, room: &mut [usize]) -> usize
        ensures count { result ≤ length room.new }
        ensures reported { reported self.old (take result room.new) self.new };
}
