use crate::{Items, Limited, Limits};

/// The box of a bitmap: its sides in pixels, and how far its lower left corner lies right of the pen
/// and above the base line.
#[derive(Clone, Copy, Debug)]
pub struct BitmapBox {
    pub width: u8,
    pub height: u8,
    pub xoff: i16,
    pub yoff: i16,
}

/// One character of a font.
#[derive(Debug, Drop)]
pub struct Glyph {
    /// The character's number.
    pub encoding: u32,
    /// How many pixels the pen advances after the glyph.
    pub advance: u8,
    pub bounds: BitmapBox,
    /// Its pixels row by row from the top, each row from the left: `true` is ink.
    pub rows: Items<bool>,
}

/// What a font is made of: the box of all its characters, its glyphs by rising encodings, and the greatest side or offset, in
/// pixels, that the box or a glyph of its file has.
#[derive(Debug, Drop)]
pub struct FontFields {
    pub side: u8,
    pub bounds: BitmapBox,
    pub glyphs: Items<Glyph>,
}

impl Limits for FontFields {
    ghost use Rattle.mapdefs.specs.FontLimits.{IsFontWithinLimits};

    ghost within = { IsFontWithinLimits };
}

/// A bitmap font. Sides and offsets are at most its `side` in size, and it has at most
/// `MAX_GLYPHS` glyphs. Their encodings rise: no two glyphs have the same one, and a binary search finds
/// it.
pub type Font = Limited<FontFields>;
