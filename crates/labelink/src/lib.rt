//! The ink of labels as covers: the glyphs of a text, each with its position, and the outline round them.
//!
//! Proved: a `PlacedGlyph` covers the pixels that its glyph inks, pixel by pixel and row by row (`Cover`).
//! `text_glyphs` gives those of a text, and `laws::ink_is_of_glyphs` says that the text has ink where one of
//! them covers. By its `Reach` an outline has the pixels of which one of the eight neighbours has ink of the text, or
//! one that is at most so many pixels away. `laws::outline_is_of_moved_texts` says that these are the ink of texts, each
//! moved by a step that the outline may reach, and `laws::outline_is_of_glyphs` that the outline of a text is that of its
//! glyphs. A `GlyphOutline` covers the neighbours of one glyph, and the `outline_runs` of a glyph cover the pixels that
//! are so near. `laws::ink_is_outlined` and `laws::nothing_else_is_outlined` say which those are,
//! `laws::outlines_are_nested` and `laws::outline_is_as_wide` how wide they lie.
//!
//! Terms: a glyph's *corner* is its leftmost column and its first row on the picture, on it or off it. A *disc* is all
//! pixels that are at most so many away from one, and a *run* is pixels of ink side by side in a row.
#![tactic(auto)]

mod disc_chords;
mod glyph_outline;
mod ink_runs;
pub mod laws;
mod placed_glyph;
mod reach;
mod run_outline;
mod text;

pub use disc_chords::DiscChords;
pub use glyph_outline::GlyphOutline;
pub use ink_runs::outline_runs;
pub use placed_glyph::PlacedGlyph;
pub use reach::Reach;
pub use run_outline::RunOutline;
pub use text::text_glyphs;
