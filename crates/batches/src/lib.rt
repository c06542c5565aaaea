//! Batches: lists of commands that change the layers of a map, all of them or none.
//!
//! Proved: `first_command` reads the command at the beginning of some bytes, or says what is wrong
//! with it. `apply_batch` gives the map after all commands of a batch. Or it gives the first fault
//! with the number of its command (`batch`), and the layers stay as they are.
//! `laws::written_is_read` says that commands which are written one after another are read back as
//! these commands. `laws::empty_batch` says that an empty batch leaves the map and is counted.
//!
//! Terms: the *reading* of a batch is its commands up to the first that can't be read, and what is wrong
//! there. The *sequence* of a state counts the batches that were accepted.
#![tactic(auto)]

mod applying;
mod bytes;
mod command;
mod fault;
pub mod laws;

pub use applying::{after_batch, apply_batch, apply_command};
pub use bytes::Bytes;
pub use command::{Command, CommandFault, CommandLine, count_of, first_command, line_len};
pub use fault::{BatchError, BatchFault, BatchKind, CommandError, MAX_BATCH};
