//! The listed ordinates of web mercator beside the logarithm that they stand for: definitions and a law alone.
//!
//! Proved: each of the 10,387 numbers of `mercator`'s table is the nearest to the logarithm (`laws::numbers_are_nearest`), by
//! tangents and exponentials between fractions. No program uses the crate.
//!
//! Terms: a *unit* is a sixteenth of a millionth of a degree of the equator, in which the numbers are listed, and a
//! *step* 8,192 millionths of a degree of latitude.
#![tactic(auto)]

pub mod laws;
