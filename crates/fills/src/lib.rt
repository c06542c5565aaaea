//! Polygons that are filled: by the flips of their edges, or by a sweep.
//!
//! Proved: `fill_rings` paints the rings of a polygon over the canvas (`Fill` of `canvas`), by the even-odd rule over all their
//! edges, whatever of them was skipped. The flips that it fills by stand for these edges (`StandFor`). `laws::columns` says
//! which chains of a ring's edges need no more than their chord.
//!
//! Terms: *flips* are those of `scanfill`. They *stand for* edges where the same pixels of the picture lie inside by both. A
//! *run* is a stretch of a ring's vertices in one row of the picture, and a *corner* a vertex that was projected.
#![tactic(auto)]

mod flip_fill;
pub mod laws;
mod polygons;
mod ring_flips;
mod run;
mod sweep;

pub use polygons::fill_rings;
