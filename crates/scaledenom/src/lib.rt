//! Scales: at which of them a layer or a class is visible.
//!
//! Proved: `Scale::within` says whether an object with two bounds on the scale denominator is visible at a
//! scale, by exact products. `laws` states that a bound is compared as a fraction, and that of two objects
//! that share a bound exactly one is visible.
//!
//! Terms: the *scale denominator* says how many times as wide the shown part of the world is on the ground
//! as in the picture. A pixel counts as 0.28 mm and a degree as 111,319.491 m; metres of web mercator are those of the
//! ground, as at the equator.
#![tactic(auto)]

pub mod laws;
mod scale;

pub use scale::Scale;
