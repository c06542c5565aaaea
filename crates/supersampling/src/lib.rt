//! From a map to its smoothed picture, whose pixels are the means of a picture so many times as fine.
//!
//! Proved: `smooth_picture` gives the smoothed picture of the chosen layers of a `FineScene`, tile by tile
//! (`IsSmoothPictureOf`). Each pixel is the mean of as many columns and rows of the fine picture as its factor says. There is
//! one such picture (`laws::one_smooth_picture`), and by a factor of 1 it is the picture (`laws::smooth_by_one`).
//!
//! Terms: the *fine picture* is the one of which the means are taken. A *tile* is a part of the smoothed picture, and the *block*
//! of its pixels a part of the fine one.
#![tactic(auto)]

mod fine_picture;
mod fine_scene;
pub mod laws;
mod means;
mod smooth;
mod tile;
mod tile_rows;
mod tiles;

pub use fine_picture::{FinePicture, MeanPicture};
pub use fine_scene::FineScene;
pub use means::Means;
pub use smooth::smooth_picture;
pub use tile::Tile;
pub use tiles::draw_tiles;
