//! Polygons that share a chain of vertices, on the picture and on the smoothed one: definitions and laws alone.
//!
//! Proved: two polygons on the two sides of a chain cover together what their outline covers (`laws::shared_chains`). Where both are
//! painted in a colour, a pixel of the smoothed picture that lies inside of the outline shows nothing of what is below
//! (`laws::no_seams`).
//!
//! Terms: a *chain* is what lies between two vertices of a ring. The *outline* of two polygons is their ring without the
//! chain that they share.
#![tactic(auto)]

pub mod laws;
