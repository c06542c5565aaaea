//! What answers queries, and what it answers.
//!
//! Terms: an *answerer* gets queries, one after another. It gives an *answer* to each, a mime type and a body, or says
//! that it is *busy*: that it can't answer now. The trait `Asks` leaves it to the answerer which answers those are: an
//! edge that passes queries on is proved over every one.
#![tactic(auto)]

mod answer;
mod asks;

pub use answer::Answer;
pub use asks::{Asks, Busy};
