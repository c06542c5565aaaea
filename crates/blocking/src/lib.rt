//! Connections by calls that wait, for programs whose calls wait: `mapservd` serves its clients otherwise, in turns (`eventloop`).
//!
//! Proved: `serve_connection` answers one connection by an answerer (`served`, `left`): it sends what the definition says
//! for all bytes that the client sent, however the reads cut them. `work` returns once no more connections come
//! (`served`), or took none of them (`refused`). The answers to each connection are stated by `serve_connection`; that
//! each connection goes to its worker, and that workers run at once, is tested.
//!
//! Terms: a *worker* is a thread with a member of its own, which answers its queries. Connections are numbered from 1,
//! and connection c is served by worker c mod N, of N.
#![tactic(auto)]

mod connection;
mod gate;
mod queue;
mod worker;
mod working;

pub use connection::{Connection, serve_connection};
pub use gate::{Gate, OpenGate};
pub use working::{StartError, Streams, work};
