//! The edge of the server: from the bytes of a stream to the bytes that answer it.
//!
//! Proved: `exchange` answers a stream (`exchanged`): it sends what the definition says for all bytes that the reader
//! had, however the reads cut them. Where the reader fails, all answers to the bytes read were sent (`kept_up`);
//! where the writer fails, exactly the first bytes of the answers were sent (`stopped`). It reads only while no whole
//! head is unanswered and none has ended the connection (`reads`), at most 16,384,000 times (`most`). `Conn::feed`
//! takes the bytes of a head and no more, and decides only what no continuation could change (`feeds`); `Conn::end`
//! gives the meaning of the bytes that came. `respond` writes an outcome. A stream and outcomes have one text, and
//! heads that don't end the connection are answered as each alone (`laws`). A `Session` is a connection without its
//! stream, for callers that can't wait: what it has sent answers what it was fed (`Session::feed`, `Session::sent`,
//! `laws::session_answers`), however both are cut. `reckoned_bytes` says before a query is asked how many bytes its answer
//! has at most, about.
//!
//! Terms: a *head* is what `httparse` reads as a request. The first *turn* of the rest of a stream is what it
//! requests first: a *meaning*, and whether the connection goes on. A meaning is nothing, a *refusal*, or a *query*,
//! which an *answerer* gets (the trait `Asks`). A *decision* is a meaning that the bytes of a head, or their end,
//! have for certain. A *piece* is what one read gave. The *outcome* is what is written: an answer, a refusal, or that
//! the server is busy.
#![tactic(auto)]

mod conn;
mod decision;
mod edge;
mod fields;
pub mod laws;
mod outcome;
mod outgoing;
mod received;
mod reckoning;
mod refusal;
mod response;
mod session;
mod stage;
mod verdict;

pub use answers::{Answer, Asks, Busy};
pub use conn::{Conn, Fed};
pub use decision::Decision;
pub use edge::{EdgeFault, exchange};
pub use outcome::Outcome;
pub use reckoning::reckoned_bytes;
pub use refusal::Refusal;
pub use response::respond;
pub use session::Session;
pub use stage::Stage;
