//! The log of a service: a line for each answer, for the likely cause of some faults, for each command of an administrator, and for each connection
//! that ended otherwise.
//!
//! Proved: each line is the one of its definition (`answer_line`, `end_line`, `hint_line`, `command_line`, `dropped_line`). A `LoggedTransport` and a
//! `LoggedSink` do what the transport and the sink within do, whatever is noted. Which lines come, and when, is tested.
//!
//! Terms: the *target* of a request is its path with its query.
#![tactic(auto)]

mod hint;
mod line;
mod queue;
mod record;
mod sink;
mod transport;

pub use hint::{Hint, hint_on};
pub use line::{AnswerNote, Cause, answer_line, command_line, dropped_line, end_line, hint_line};
pub use queue::{LogQueue, MAX_LINES};
pub use record::Record;
pub use sink::LoggedSink;
pub use transport::{EndsEarly, LoggedTransport};
