//! What keeps accepted batches, so that they outlive the process, or doesn't.
//!
//! Proved: of each keeper that `Keeps` is implemented for, all batches of a call that ends well are kept (clause `kept`). A crash at any
//! moment of the call leaves those from before it, and after them the first of these, or none (`any_moment`). `Nowhere` keeps none, and
//! promises so much of nothing.
//!
//! Terms: a *keeper* keeps each accepted batch before it is published. A *cause* says why a log that it writes failed.
#![tactic(auto)]

mod cause;
mod keeps;

pub use cause::LogCause;
pub use keeps::{KeepFault, Keeps, Nowhere};
