//! The event loop of a worker, which serves its connections in turns as they become ready, and the threads that run it.
//!
//! A connection comes to its worker by a `Handover`. The worker waits at its `Poller`, gives each connection that is ready its
//! turn, and closes one whose time is over and that has nothing to do. The loop calls `ConnectionTable` of `turns`, whose contracts state what a turn
//! does and which connection has the next one.
//!
//! Proved: a loop goes in rounds from a table without connections, until it was told to end and has none (`run`), and so does the
//! worker that a thread gives back (`HasServed`, `WorkerThreads::end`). After each wait it obeys its orders, takes over what waits, makes
//! turns with one query at most, makes room, and closes connections whose time is over (`IsRound`), all at the moment that its clock
//! showed behind the wait. What the poller reports has a turn (`wait`, `laws::events_serve`). No proof covers that the system reports each
//! event, nor that threads run. Each call ends but `run` and those that wait.
//!
//! Terms: a worker *finishes* where no further connection comes to it: those that it has are served to their end. It *stops*
//! where those that aren't being answered are closed.
#![tactic(auto)]

mod ending_early;
mod handed_over;
mod handover;
pub mod laws;
mod orders;
mod poller;
mod rounds;
mod turning_away;
mod worker;
mod worker_clock;
mod worker_threads;

pub use handed_over::Ending;
pub use handover::{Handover, MAX_WAITING};
pub use orders::Orders;
pub use poller::{Poller, Wakes};
pub use rounds::{MAX_EVENTS, run};
pub use turning_away::turn_away;
pub use worker::{Capacity, MAX_OWED_BYTES, Worker};
pub use worker_threads::{HasServed, WorkerStartError, WorkerThreads, start_worker};
