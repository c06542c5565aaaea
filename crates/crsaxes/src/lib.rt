//! Coordinate reference systems: which of two coordinates is the longitude.
//!
//! Proved: `Crs::bbox` and `bbox` read the box of four coordinates in the axis order of its system, or its first
//! fault, by their clause `value`. A box that they read has an area within the world (`extent`).
//! `Crs::metres_across` gives its width in metres, as its eastings are read. Metres that `metres_down` and
//! `metres_up` round are read as the coordinate that they are of (`laws::metres_are_read`).
//!
//! Terms: the *axis order* of a coordinate reference system (CRS) says whether the longitude or the
//! latitude is written first.
#![tactic(auto)]

mod area;
mod crs;
mod fault;
pub mod laws;
mod metres;

pub use area::bbox;
pub use crs::{Crs, crs_of};
pub use fault::AxisFault;
pub use metres::{METRE_LIMIT, metres_down, metres_up};
