//! The three streams of the program, and how it ends: its input, its output, and its errors.
//!
//! Proved: a line that is `report`ed is sent whole and flushed, unless the writer of errors failed. `finish` does the
//! same for the output, and returns its failure where that writer fails. `read_all` reads an input to its end.
//!
//! One relation, `Leaves`, has the states of the three after an outcome: which of them have failed, and that the output
//! is flushed where all was done.
#![tactic(auto)]

mod failure;
mod input;
mod reporting;
mod terminal;

pub use failure::{Failure, ListenCause};
pub use input::{ReadFault, read_all};
pub use reporting::{finish, flush, report};
pub use terminal::{Console, Reads, Terminal, Writes};
