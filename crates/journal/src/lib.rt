//! The format of a journal: the form of batches in a file, and how a file is read whatever became of its end.
//!
//! Proved: `laws::promises` holds of the format, for any digest of 32 bytes. A file has one reading (clause `one`), and a written journal
//! is read (`written`). Where an append stops at any byte, the batches before it are read, and its part is a torn tail (`stops`), as at
//! any byte of a whole journal (`begins`). Damage before the last record is seen (`damage`). A file is the journal of one map at most, and
//! has one last compaction, if any (`named`). The header of a compacted journal is that of none once its name or its digest is damaged,
//! unless two messages have one digest (`other_name`, `other_digest`). A file that is read as fewer batches than were written with its
//! header stands for none (`part`). `push_record` adds the record of a batch (`spelled`). A file is read by frames: `first_frame` returns
//! the bytes up to an END, `decode` the batch of those that are the record of a number (`numbered`), and `is_record` whether they are any
//! record (`any`).
//!
//! Terms: a *record* is a *frame* of a number, a batch and the digest of both. The *fingerprint* of a map is the digest of its mapfile and
//! its files. The *name* of a journal is this, and of a compacted one how many batches were left out of it, and how many were written with
//! its header. The *tail* is the bytes after the records; it is *torn* where it contains no whole record.
#![tactic(auto)]

mod fingerprint;
mod header;
pub mod laws;
mod name;
mod record;
mod slip;

pub use fingerprint::{UsedFile, fingerprint_of};
pub use header::{HeaderFault, MAX_HEADER, SIGNATURE, after_header, push_header};
pub use name::{Compaction, JournalName};
pub use record::{decode, is_record, push_record};
pub use slip::first_frame;
