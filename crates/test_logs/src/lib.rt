//! A log of tests, in memory, that stops at any byte.
//!
//! `Tape` is proved to be a reliable log, so that there is one. `Recording` has its moments for a test that has given it away.
#![tactic(auto)]

mod recording;
mod tape;

pub use recording::{Moment, Recording};
pub use tape::{Tape, TapeFailed};
