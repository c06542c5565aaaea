use crate::fields::Encoding;
use crate::small_box::SmallBox;
use mapdefs::{BitmapBox, FontFields, Glyph, Items};

/// The fields of a font that its header has named.
#[derive(Clone, Copy)]
pub struct FontHeader {
    /// The greatest side and offset that a box may have.
    pub most: u8,
    pub bounds: Option<SmallBox>,
    /// What CHARS says.
    pub count: Option<u64>,
}

/// A font as far as it is read: the fields of its header, and its glyphs.
#[derive(Drop)]
pub struct Draft {
    /// The greatest side and offset that a box may have.
    pub most: u8,
    /// The greatest one that the font's box and the glyphs have.
    pub side: u8,
    pub bounds: BitmapBox,
    /// How many glyphs CHARS announces.
    pub count: u64,
    /// How many have begun.
    pub started: usize,
    /// Those that are read and have an encoding, in the order of the file.
    pub glyphs: Items<Glyph>,
}

/// The fields of a glyph that its header has named.
#[derive(Clone, Copy)]
pub struct GlyphHeader {
    pub encoding: Option<Encoding>,
    pub advance: Option<u8>,
    pub bounds: Option<SmallBox>,
}

/// A glyph as far as its rows are read.
#[derive(Drop)]
pub struct GlyphRows {
    pub encoding: Encoding,
    pub advance: u8,
    pub bounds: SmallBox,
    /// The pixels of the rows that are read.
    pub pixels: Items<bool>,
    /// How many rows remain.
    pub left: u8,
}

/// Where a line stands.
#[derive(Drop)]
pub enum Section {
    /// Before STARTFONT. Boxes may have this greatest side and offset.
    Before(u8),
    /// In the font's header, before the first glyph.
    InHeader(FontHeader),
    /// Between two glyphs, or after the last.
    Between(Draft),
    /// In the header of a glyph.
    InGlyph(Draft, GlyphHeader),
    /// In the rows of a glyph, or after the last of them.
    InRows(Draft, GlyphRows),
    /// After ENDFONT. The glyphs stand in the order of the file.
    Ended(FontFields),
}

/// Where a line stands, and whether it is one of the properties, which are skipped.
#[derive(Drop)]
pub struct ReaderState {
    pub section: Section,
    pub in_properties: bool,
}
