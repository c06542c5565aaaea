//! Feature information: which features of a layer are seen near a pixel of a picture, and their text.
//!
//! Proved: `hits_in` and `hits` give the first features of a layer that are hit (`AreHitsOf`), for every `near`. A feature
//! is hit where its layer shows at the scale, it has a class, and its plain cover has a pixel of the picture within the
//! layer's tolerance of the queried pixel. `text` gives the text of the hits of some layers, byte by byte.
//! `laws::nearby` says which pixels are near the queried one. `laws::far` says that a feature whose vertices all lie
//! beyond one side of these pixels is not hit. Of a polygon those edges are tested that cover the same near pixels as all
//! do (`CoverAlike`).
//!
//! Terms: the *plain cover* of a feature is the polygon, a line one pixel wide, or the pixels of points, whatever its
//! styles are. The *hits* of a layer are the indices of the features that were hit, in order.
#![tactic(auto)]

mod few_edges;
pub mod laws;
mod layer_hits;
mod nearby;
mod reach;
mod side;
mod text_lines;

pub use layer_hits::{LayerHits, LayerQuery, hits, hits_in};
pub use text_lines::text;
