//! The sharing of a machine between many readers and one administrator: a pure machine over events, without threads.
//!
//! Proved: `laws::shared` holds of any machine with batches and queries, after any list of events. Each answer is one
//! in the state after published batches, accepted one after the other, which begin with all that its reader was shown
//! or learned of (clause `answers`). All known batches and each receipt begin the published batches, and an entry
//! always has a state (`keeps`). Batches that were published or known stay so (`grows`).
//!
//! Terms: the administrator *submits* batches; one that is accepted is *pending* until it is *published*. A *receipt*
//! has all batches that were published when it was made. A reader *learns* a receipt, *enters* to be answered in one
//! state, its *entry*, and *leaves* it. It *knows* batches that are published for certain.
#![tactic(auto)]

pub mod laws;
