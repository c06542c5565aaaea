//! Boxes that were placed on a picture, and whether a further one shares a pixel with any of them.
//!
//! Proved: `Boxes::add` keeps each box that it gets, on the picture or off it, and `Boxes::hits`
//! says whether a box shares a pixel with one of them.
//!
//! Terms: two boxes *meet* where some pixel lies in both; boxes that only touch don't. A pixel is *marked*
//! where it lies in a box that was added.
#![tactic(auto)]

mod bits;
mod boxes;
mod marks;

pub use boxes::Boxes;
pub use marks::MAX_SIDE;
