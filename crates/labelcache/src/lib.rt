//! Which labels of a picture are placed, and where.
//!
//! Proved: `Cache::place` gives the placement of the candidates (`IsPlacement`). In the order of trial,
//! each label stands at the first of its candidate's positions that passes the tests against the labels tried
//! before it. Where a candidate has no label, none of its positions passes. There is one such list
//! (`laws::one_placement`).
//!
//! Terms: a *candidate* is a text with its anchor and its label, and its *number* says how many were added
//! before it. The *order of trial* goes by falling priority, and then by falling number. A *position* says
//! how a text lies to its anchor. It gives the text's *corner*, which is its upper left pixel. The *taken box* of a
//! label is the box of its text, grown by the buffer and the outline.
#![tactic(auto)]

mod advances;
mod anchors;
mod cache;
mod candidate;
mod cells;
mod distance;
mod label_box;
pub mod laws;
mod marked;
mod order;
mod page;
mod placing;
mod text_anchors;
mod trial;

pub use cache::{Cache, Placed};
pub use candidate::Candidate;
pub use collide::MAX_SIDE;
