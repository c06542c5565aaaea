//! The service: `serve` with a map. Workers answer the connections of clients, a second port takes the batches of administrators, and a
//! thread writes the log.
//!
//! Proved of `serve_by_threads`: it writes the addresses of the ports once, in one line, and ends as writing them did, or for lack of a
//! port, a thread or memory before (`announced`). Its result names the map that it served, and the ports (`served`). All batches that are
//! accepted are kept (`kept`), and a crash at any moment leaves those that were kept before, and some that are accepted after them
//! (`crash`). It ends because its journal failed just where a call of the keeper did, or the history has other batches, and names
//! the cause (`cause`). Where it ends well, as many workers as are requested answered their connections as readers of this map
//! (`clients`).
//!
//! The last is what the thread of clients promises to the one that joins it (`ServesClients`), and that it told the thread of
//! administrators where it failed. Of the threads of the log and of the input with whose end the service ends no clause says what
//! they do.
//!
//! Terms: the *keeper* of batches keeps each accepted batch. A thread is *told* by a flag and the end of its wait.
#![tactic(auto)]

mod administering;
mod announcing;
mod clients;
mod flags;
mod logging;
mod runtime;
mod served;
mod signals;
mod started;
mod starting;
mod threaded;

pub use logging::LoggedPoller;
pub use runtime::Runtime;
pub use served::Served;
pub use threaded::{Kept, serve_by_threads};
