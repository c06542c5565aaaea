//! A service that keeps batches in a journal, over all its lives: a pure machine over events, without threads or files.
//!
//! Proved: `laws::durable` holds of any state that batches change, whatever is submitted, and however often the journal is compacted,
//! and the service is stopped by a fault or a crash and started again. The batches of the service begin with all that was ever published,
//! to readers or by a report. Each of them was submitted, in the same order, and is accepted after those before it. Each state that was
//! published is the one after the batches published with it (clause `durable`). Until the first checkpoint the journal has all batches
//! (`whole`).
//!
//! Terms: a service *publishes* a list of batches where it shows all of them to readers, in the state after them. A *life* is the time
//! between a start and the next fault of its log or crash. A *checkpoint* puts a journal of fewer batches in place of the journal, which
//! lead to the same state.
#![tactic(auto)]

pub mod laws;
