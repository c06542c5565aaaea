//! One map for many readers, which one administrator changes.
//!
//! Proved: `laws::shared` holds of the map machine, whatever state it is opened in and whatever an administrator and
//! readers do. Each answer is one of the machine after published batches, accepted one after the other, which begin
//! with all that its reader was shown or learned of. The running calls keep the rows of that law. `Admin::submit`
//! accepts a batch after all that were accepted, refuses it with its first fault there, and publishes all that is
//! pending or holds it (`submitted`). `Admin::accept_kept` accepts several batches up to the first that isn't
//! (`accepted`), and keeps just those by one sync (`kept`, `unkept`, `any_moment`). `Admin::retry` reports that nothing
//! is pending exactly where that is so (`idle`, `retried`). `Reader::learn` takes the longer of two lists of which one
//! begins the other (`one`, `kept`, `learned`). The entry of `Reader::enter` begins with all that the reader knew
//! (`known`), and the reader then knows it (`knows`). `Entered::answer` is an answer of the machine after just the
//! batches that the entry shows. A reader is an answerer (`reader_answers`). No clause joins the calls of two threads;
//! the law is about lists of events.
//!
//! Neither `enter` nor `answer` can wait: they have no handle. `open`, `submit`, `retry` and `close` may wait
//! for a reader that still reads the older copy.
//!
//! `layers_cross` and `machine_crosses` require that layers and a map machine may be sent to other threads and read from
//! them. That is proved of each type that they are made of. `reader_crosses` requires that a reader may be sent to
//! another thread.
//!
//! Terms: a *receipt* has all batches that were published when it was made. A reader *knows* batches that are published
//! for certain. An *entry* shows one state, whatever is published meanwhile. A *replica* is published, or waits for
//! that: a map machine and the batches that led to it. Batches that are accepted by one call have one replica. A batch
//! is applied once, where it is accepted.
#![tactic(auto)]

mod admin;
mod answerer;
mod checking;
pub mod laws;
mod opening;
mod reader;
mod receipt;
mod replica;
mod rule;
mod threads;

pub use admin::{Admin, KeepFailed, Retried, Submitted};
pub use checking::Accepted;
pub use opening::{MAX_READERS, ShareFault, open};
pub use reader::{Closed, Entered, Reader};
pub use receipt::Receipt;
pub use rule::Sharing;
pub use threads::{layers_cross, machine_crosses, reader_crosses};
