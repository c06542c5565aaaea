/// The most layers of a map.
pub const MAX_LAYERS: usize = 128;

/// The most symbols of a map.
pub const MAX_SYMBOLS: usize = 64;

/// The most classes of a layer.
pub const MAX_CLASSES: usize = 64;

/// The most items of a layer.
pub const MAX_ITEMS: usize = 64;

/// The most features of a layer.
pub const MAX_FEATURES: usize = 200_000;

/// The greatest tolerance of a layer, in pixels.
pub const MAX_TOLERANCE: u8 = 64;

/// The most styles of a class.
pub const MAX_STYLES: usize = 16;

/// The most brackets and NOTs within one another in an expression.
pub const MAX_NESTING: usize = 64;

/// The most vertices of a feature.
pub const MAX_VERTICES: usize = 65_536;

/// The greatest width of a line, in pixels.
pub const MAX_LINE_WIDTH: u8 = 32;

/// The greatest side of the square at a point, in pixels.
pub const MAX_SQUARE: u16 = 256;

/// The greatest width of a line on a fine picture, in its pixels: `geom::MAX_FACTOR` times `MAX_LINE_WIDTH`.
pub const MAX_FINE_WIDTH: u8 = 128;

/// The greatest side of a square there: `geom::MAX_FACTOR` times `MAX_SQUARE`.
pub const MAX_FINE_SQUARE: u16 = 1_024;

/// The greatest side of a symbol, in pixels.
pub const MAX_SYMBOL_SIDE: u16 = 256;

/// The greatest width of a label's outline, in pixels.
pub const MAX_OUTLINE_WIDTH: u8 = 8;

/// The greatest width of one on a fine picture, in its pixels: `geom::MAX_FACTOR` times `MAX_OUTLINE_WIDTH`.
pub const MAX_FINE_OUTLINE: u8 = 32;

/// The greatest priority of a label.
pub const MAX_PRIORITY: u8 = 10;

/// The greatest buffer round a label, in pixels.
pub const MAX_BUFFER: u8 = 64;

/// The greatest distance between labels of the same text, in pixels.
pub const MAX_DISTANCE: u16 = 4_096;

/// The greatest side and offset of a font's box and of a glyph, in pixels.
pub const MAX_GLYPH_SIDE: u8 = 64;

/// The greatest side and offset of those of a font of a smoothed map, in pixels of its fine pictures.
pub const MAX_FINE_GLYPH_SIDE: u8 = 255;

/// The most fonts of a map that have names of their own, beside the one of labels that name none.
pub const MAX_FONT_NAMES: usize = 16;

/// The most glyphs of a font.
pub const MAX_GLYPHS: usize = 65_536;
