//! The vertices of rings and lines: chains of them, and on which sides of a pixel they lie.
//!
//! Proved: `last_of` gives the last vertex of a chain (`chain_end`). The lemmas say what a chain's edges add to the
//! crossings of the even-odd rule where all its vertices lie on one side of a pixel (`Chains`), and that a polygon, a line,
//! a square or a pixmap covers no pixel that has all vertices or points on one side (`NearShapes`, `NearLines`). So what
//! covers a pixel of the picture has a box that meets the picture's window (`NearBoxes`). Painting skips vertices by them,
//! and feature information whole features.
//!
//! Terms: a *chain* is a vertex and those that follow on it, and its *chord* the edge from the first to the last. A *block*
//! of a part is a chain of up to 32 edges, and its box has all of its vertices.
#![tactic(auto)]

mod chain;

pub use chain::{Block, FEW_VERTICES, last_of};
