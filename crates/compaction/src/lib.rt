//! Compaction: batches without the commands that later ones undo.
//!
//! Proved: once all batches are noted, `LastChanges::add_left` gives what is left of each. `laws::compacted_leads_to_the_same` says
//! that what is left of all batches leads to the same map, and with the count of those that are left out to the same sequence.
//! `laws::nothing_left_is_undone` says that no more can be left out by these rules, and `laws::compact_is_left_whole` that nothing else
//! is.
//!
//! Terms: a later command *undoes* an earlier one of the same layer where a CLEAR follows a CLEAR or APPEND, or an ON or OFF an ON or
//! OFF. What is *left* of a batch are the bytes of its commands that no later one undoes, and *compacted* batches are what is left of
//! them, without those of which nothing is left.
#![tactic(auto)]

mod last_changes;
pub mod laws;

pub use last_changes::LastChanges;
