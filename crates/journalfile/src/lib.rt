//! A journal on a log that outlives a crash, and a map machine that is brought back by it.
//!
//! Proved, of any log that is reliable: `Journal::put` keeps batches by one sync, all of them at `Ok` (clause `kept`). A crash at any
//! moment of the call leaves those from before it, and after them the first of these, or none (`any_moment`). `recover` brings a map
//! machine to the state after just the batches of the log (`recovered`) or returns why it doesn't (`fault`). It opens each file that
//! stands for accepted batches (`opens`), and may itself be interrupted at any moment (`any_moment`). It reads the log frame by frame,
//! and so takes memory for the longest record, and not for the log. `read_name` reads the name of the journal before that, which
//! says how many batches were left out of it, and how many were written with its header: where one of these is missing, it isn't opened.
//!
//! `Journal::compact` leaves just what `compaction` leaves of its batches (`compacted`), on a log that takes the place of its own: a crash
//! at any moment leaves the batches before it, or what is left of them (`any_moment`). A `Journal` keeps just the batches that it was
//! given. A `CompactedJournal` is compacted where it has grown: it then has fewer, which lead to the same state as all of them.
//!
//! Terms: a log is *settled* where a crash leaves just its bytes. Bytes *stand for* batches where they are their journal, perhaps
//! with a torn tail. A journal or a file *has* batches where it stands for these, or for fewer
//! that lead to the same state.
#![tactic(auto)]

mod checkpoint;
mod compacting;
mod failure;
mod frames;
mod header;
mod keeps;
mod log;
mod reading;
mod records;
mod recovery;
mod replaceable;
mod steps;
mod writing;

pub use checkpoint::{Checkpoint, CompactedJournal};
pub use failure::LogFailure;
pub use log::Log;
pub use reading::NotCompacted;
pub use recovery::{RecoverFault, Recovered, read_name, recover};
pub use replaceable::{ReplaceFault, Replaceable};
pub use writing::{Journal, PutFault};
