//! Warnings on a map without a fault, which its clients can't use as it is, or which doesn't show what its mapfile has.
//!
//! Proved: `warnings` gives those on the service and on the layers, `small_bitmaps` the fonts and the symbols that smoothed
//! pictures show too small, and `warning_lines` the lines of all of these, byte by byte.
//!
//! Terms: a *bitmap* is a font of the labels or a symbol. On a smoothed map its pixels are those of the fine picture.
#![tactic(auto)]

mod bitmap;
mod lines;
mod unused;
mod warning;

pub use bitmap::{Bitmap, LEAST_HEIGHT, LEAST_SIDE, SmallBitmap, small_bitmaps};
pub use lines::warning_lines;
pub use warning::{Concern, Warning, warnings};
