//! From a map to its picture: what is painted, and in which order.
//!
//! Proved: `draw` and `picture` give the picture of the chosen layers in a view. Each pixel has the colour of
//! the last shape of the paint list, and then of the ink of the labels, that covers it, else the
//! background, which may be none (`IsPictureOf`). The labels are the placement of the candidates of
//! the classified features. There is one such picture (`laws::one_picture`), and it doesn't depend on
//! how features are found (`laws::paints_near`, `candidates_paint_all`, `anchors_are_near`,
//! `found_label_all`). A layer that is chosen several times is painted once, which gives the same picture
//! (`laws::last_mentions_paint_all`).
//!
//! A block of a picture has in each pixel what the whole picture has there (`laws::blocks_are_parts`), so a picture may be painted
//! block by block: `draw_block` gives a block (`IsBlockOf`), over which the `Labels` of the whole picture are painted.
//!
//! Terms: a *shape* is that of `canvas`. The *paint list* has the shapes of the chosen layers in order: a layer's features, a
//! feature's styles, the points of a feature. A feature of the chosen layers is *classified* when it has a class at the
//! scale. A *block* is a part of a picture. A *candidate* is a text that may be placed, and its *anchor* the pixel that its
//! label's positions lie round.
#![tactic(auto)]

mod anchor;
mod block;
mod classified_feature;
mod drawing;
mod ink;
mod label;
mod label_scene;
mod labelled_layer;
mod labels;
pub mod laws;
mod layer_classes;
mod margin;
mod paint;
mod polygon;
mod reach;

pub use block::draw_block;
pub use labels::Labels;
pub use paint::{PictureQuery, draw, picture};
