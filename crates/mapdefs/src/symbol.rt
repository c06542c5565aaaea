use crate::{Items, Limited, Limits, Rgb, Text};

/// What a pixmap is made of: its sides in pixels, and its pixels row by row from the top.
#[derive(Drop)]
pub struct PixmapFields {
    pub width: u16,
    pub height: u16,
    pub pixels: Items<Rgb>,
}

impl Limits for PixmapFields {
    ghost use Rattle.mapdefs.specs.PictureLimits.{IsPixmapWithinLimits};

    ghost within = { IsPixmapWithinLimits };
}

/// The picture of a symbol. Each side has 1 to `MAX_SYMBOL_SIDE` pixels.
pub type Pixmap = Limited<PixmapFields>;

/// What a symbol draws at a point.
#[derive(Drop)]
pub enum SymbolShape {
    /// The disc of the style's size round the point, and its outline as a ring in it.
    Disc,
    /// A pixmap round the point's pixel.
    Pixmap(Pixmap),
}

/// A symbol that points are drawn with.
#[derive(Drop)]
pub struct Symbol {
    pub name: Text,
    pub shape: SymbolShape,
}
