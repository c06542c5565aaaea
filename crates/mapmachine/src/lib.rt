//! The map machine: it holds a map, changes it by batches, and answers queries about it.
//!
//! Proved: `Machine::run` is a run of the machine (clause `run`): each event has its reply, in
//! order. An answered query gets what it requests, which is the capabilities document, a picture or
//! feature information, or the document of its first fault. A batch that is published leads to the
//! state after all its commands. A reply that refuses a batch or is out of memory leaves the state.
//! `reply`, `batch` and `step` are single events of it. `laws::published_counts` says that the
//! sequence grows by the number of published batches. `laws::replicas_answer_alike` says that
//! machines which published equal batches answer a query with the same bytes, in PNG with the same picture. A
//! machine is an answerer
//! (`machine_answers`): it gives its answer, or is busy where memory is refused.
//!
//! Terms: the *state* is the map and a *sequence*, which counts published batches. An *event* is what
//! comes in, a *reply* what goes out. The reply to a query is an *answer*: a mime type and a body.
#![tactic(auto)]

mod answerer;
pub mod laws;
mod machine;
mod reply;
mod views;

pub use answers::Answer;
pub use batches::{BatchError, BatchFault, BatchKind, Bytes, MAX_BATCH};
pub use machine::Machine;
pub use operations::Mime;
pub use reply::{Event, Reply};
