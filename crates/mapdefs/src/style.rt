use crate::{Limited, Limits, Rgb};

/// What a style says. `symbol` is an index into the map's symbols.
#[derive(Drop)]
pub struct StyleFields {
    pub colour: Option<Rgb>,
    pub outline: Option<Rgb>,
    /// The width of lines, in pixels.
    pub width: u8,
    /// The side of the square at a point, in pixels.
    pub size: u16,
    pub symbol: Option<usize>,
}

impl Limits for StyleFields {
    ghost use Rattle.mapdefs.specs.StyleLimits.{IsStyleWithinLimits};

    ghost within = { IsStyleWithinLimits };
}

/// A style: how the features of a class are painted. Its width is 1 to `MAX_LINE_WIDTH`, its size 1 to
/// `MAX_SQUARE`.
pub type Style = Limited<StyleFields>;
