//! The values that a block of a mapfile was given, of which the last of each keyword counts.
//!
//! Proved: each call of `Values` gives the last value of its kind, as `last` of `specs/Values` has it. `Stack` is the list under it.
//!
//! Terms: contracts see the values, and a stack, from the last one on.
#![tactic(auto)]

mod stack;
mod values;

pub use stack::Stack;
pub use values::Values;
