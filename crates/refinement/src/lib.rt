//! The calls of a service with a journal, as steps of the machine of its lives.
//!
//! Proved: `laws::calls_are_steps` reads the contracts of `mapshare` and `journalfile` as events of `durability`. Batches that
//! `Admin::accept_kept` accepts are submitted one after the other (clause `submits`), and those of a call that a crash or a failure of the log
//! ends may be kept up to some one of them (`breaks`). What `Admin::retry` publishes is a retry (`retries`). `Journal::compact` is a checkpoint, also
//! where it fails or a crash comes (`compacts`, `stops`). A settled journal that is left is a crash (`crashes`), and `recover` a start (`starts`). So
//! what `durability::laws::durable` says of the machine, it says of these calls.
#![tactic(auto)]

pub mod laws;
