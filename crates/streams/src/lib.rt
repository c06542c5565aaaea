//! Streams: where bytes come from and where they go, and what is known of both where they fail.
//!
//! Proved: `put_all` and `put_pieces` say of each sink what went out: all of it (`sent`), or exactly the first
//! bytes, with the flag of writing set (`cut`, `flag`). A `Source` gives no bytes only at its end. `Flagged` makes
//! both of std's readers and writers; a failed call sets its own flag and no other.
//!
//! Terms: bytes are taken from a *source* and put into a *sink*. A text is *sent* where all of it went out, and
//! *cut* where only its first bytes did.
#![tactic(auto)]

mod buffered;
mod flagged;
mod gathered;
mod putting;
mod sink;
mod source;

pub use buffered::BufferedSource;
pub use flagged::Flagged;
pub use putting::{put_all, put_pieces};
pub use sink::{PutFailed, Sink, WriteFault};
pub use source::{Source, TakeFailed};
