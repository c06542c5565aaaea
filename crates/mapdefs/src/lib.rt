//! The types of a map, with the limits that each keeps, and the definitions that several crates cite.
//!
//! Proved: a value of each type is within its limits. The caller that makes it shows so (`Limited::new`), and
//! each reader may rely on it (`Limited::get`, clause `limits`). `Map::find` finds the first layer
//! with a name, and `Picture::at` reads the pixel of a column and a row.
//!
//! In a clause a map is a plain nested record. `Items`, `PartList` and `Values` are lists, `Text` a list of bytes,
//! `Boxed` and `Shared` the value in them, and `Map`, `Layer` and the others are their fields.
//!
//! Terms: a *layer* holds *features* of one *kind*. Its *classes* are tried in order, and the first that is
//! visible and whose *rule* holds is the feature's. The *styles* of the class say how the feature is painted,
//! its *label* how it is named. An *item* is an attribute of the features.
#![tactic(auto)]

mod all_features;
mod block_box;
mod boxed;
mod chain;
mod class;
mod colour;
mod duplicate;
mod expr;
mod feature;
mod font;
mod items;
mod label;
mod layer;
mod limited;
mod limits;
mod map;
mod near;
mod part;
mod part_list;
mod picture;
mod pixel;
mod pixel_colour;
mod rgba;
mod shared;
mod shared_items;
mod smooth_picture;
mod style;
mod symbol;
mod text;
mod texts;
mod values;

pub use all_features::AllFeatures;
pub use block_box::{BLOCK_EDGES, BlockBox};
pub use boxed::Boxed;
pub use class::{Class, ClassFields, Rule};
pub use colour::Rgb;
pub use duplicate::Duplicate;
pub use expr::{Comparison, Expr, Operand};
pub use feature::{Feature, FeatureFields};
pub use font::{BitmapBox, Font, FontFields, Glyph};
pub use items::Items;
pub use label::{Label, LabelFields, Position};
pub use layer::{Geometry, Layer, LayerFields};
pub use limited::{Limited, Limits};
pub use limits::{
    MAX_BUFFER, MAX_CLASSES, MAX_DISTANCE, MAX_FEATURES, MAX_FINE_GLYPH_SIDE, MAX_FINE_OUTLINE,
    MAX_FINE_SQUARE, MAX_FINE_WIDTH, MAX_FONT_NAMES, MAX_GLYPH_SIDE, MAX_GLYPHS, MAX_ITEMS,
    MAX_LAYERS, MAX_LINE_WIDTH, MAX_NESTING, MAX_OUTLINE_WIDTH, MAX_PRIORITY, MAX_SQUARE,
    MAX_STYLES, MAX_SYMBOL_SIDE, MAX_SYMBOLS, MAX_TOLERANCE, MAX_VERTICES,
};
pub use map::{Map, MapFields};
pub use near::Near;
pub use part::{Part, split_block};
pub use part_list::PartList;
pub use picture::{Picture, PictureFields};
pub use pixel::Pixel;
pub use pixel_colour::PixelColour;
pub use rgba::Rgba;
pub use shared::Shared;
pub use shared_items::SharedItems;
pub use smooth_picture::{SmoothFields, SmoothPicture};
pub use style::{Style, StyleFields};
pub use symbol::{Pixmap, PixmapFields, Symbol, SymbolShape};
pub use text::Text;
pub use texts::Texts;
pub use values::Values;
