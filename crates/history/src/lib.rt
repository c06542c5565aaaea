//! One history of batches that only grows, and the prefixes of it that threads know.
//!
//! Proved: of two prefixes of one history the shorter begins the longer (`Prefix::longer`, clauses `this` and `that`),
//! whatever threads they come from. `Prefix::add` adds a batch after a prefix that is the whole history, or finds that
//! the history is longer (clause `adds`).
//!
//! Terms: a *history* is a list of batches. It exists in the proofs alone: the running program keeps only its length. A
//! *prefix* is a beginning of it that was seen.
#![tactic(auto)]

mod prefix;
mod rule;

pub use prefix::{Blank, History, MAX_HISTORY, Prefix, Shown};
pub use rule::Naming;
