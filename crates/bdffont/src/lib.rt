//! Bitmap fonts: a reader of BDF files, the extent of a text in a font, and the pixels that it inks.
//!
//! Proved: `read` gives the font that a file describes (clause `font`) or its first fault with its
//! line (`error`), for any bytes; so does `read_within`, with another greatest side of boxes. `extent` is the sum of the
//! advances and the height of the font's box (`width`, `height`), and `ink` says of each pixel whether a text has ink there.
//! Laws state that a file has one font, that its side is the greatest of its boxes, that a font or a row which is written
//! out is read back, that lines which begin with no keyword change nothing, and that ink is that of a character, the pen
//! having advanced by those before it (`laws`). `split_char`, `glyph_of`, `advance_of` and
//! `corner_of` give a text's glyphs one by one, and the corner of each; `inks_at` says what one of them inks.
//!
//! Terms: a *section* is the part of a file in which a line stands, as a header or the rows of a glyph. The
//! *state* is the section, and whether properties are skipped there. A *draft* is a font as far as it is
//! read. The *pen* is where the next glyph is drawn.
#![tactic(auto)]

mod bits;
mod fault;
mod fields;
mod file;
mod glyphs;
mod keyword;
pub mod laws;
mod line;
mod number;
mod section;
mod small_box;
mod step;
mod text;

pub use fault::{FontError, FontFault, FontKind};
pub use file::{read, read_within};
pub use text::{
    GlyphCorner, MAX_CHARACTERS, advance_of, corner_of, extent, glyph_of, ink, inks_at, is_short,
    split_char,
};
