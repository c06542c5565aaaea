use crate::colour::Component;
use crate::font::FontKey;
use crate::table::{ColourKeyword, CountKeyword, FlagKeyword, OnlyWord, ScaleKeyword, TextKeyword};

/// The blocks of the language.
#[derive(Clone, Copy)]
pub enum Block {
    Map,
    Layer,
    Class,
    Style,
    Feature,
    Points,
    Label,
    Web,
    /// A symbol that points are drawn with.
    Symbol,
    /// Keys and values of a WEB, of which some say what the service is called.
    WebMetadata,
    /// Keys and values of a LAYER, of which some say what it is called.
    LayerMetadata,
    /// Pairs of values that have no effect.
    Validation,
    /// It is skipped up to the next bare word END.
    Projection,
    /// It is skipped. LABEL, METADATA and VALIDATION open blocks inside it, which are skipped too.
    Skipped,
    /// A LABEL inside a block that is skipped. STYLE opens a block inside it too.
    SkippedLabel,
}

/// What a keyword still expects, with the values that were read for it.
#[derive(Drop)]
pub enum Expected {
    /// A text.
    Text(TextKeyword),
    /// The geometry of a layer's features.
    Geometry,
    /// The name of the file of a layer's table.
    Table,
    /// The type of a symbol, which is PIXMAP.
    Pixmap,
    /// The type of a symbol of a smoothed map: PIXMAP or ELLIPSE.
    SymbolType,
    /// The radii of a disc, 1 each, of which so many are still to come, and END after them.
    Radii(u8),
    /// TRUE, which fills a disc.
    Filled,
    /// A count.
    Count(CountKeyword),
    /// Where a label lies.
    Position,
    /// TRUE or FALSE.
    Flag(FlagKeyword),
    /// A scale denominator.
    Scale(ScaleKeyword),
    /// The rule of a class.
    Rule,
    /// A setting of a layer: its key, an equals sign, its value.
    Setting,
    /// The key of a CONFIG, after which its value comes.
    ConfigKey,
    /// The name of the file of a font, after the key of that.
    FontFile(FontKey),
    /// Names of formats, of which the service offers those that it can make.
    Formats,
    /// Names of coordinate reference systems, of which it offers web mercator.
    Systems,
    /// How many times as fine the pictures are of which a map's pictures are the means.
    Smoothing,
    /// The west of the extent, after which south, east and north come. What was read of it is kept as
    /// plain numbers, in millionths of a degree.
    West,
    /// The south of the extent, after its west.
    South(i64),
    /// The east of the extent, after its west and its south.
    East(i64, i64),
    /// The north of the extent, after its west, its south and its east.
    North(i64, i64, i64),
    /// A colour: a text `#rrggbb`, or three counts of which the first is next.
    Colour(ColourKeyword),
    /// The count of green, after that of red.
    Green(ColourKeyword, Component),
    /// The count of blue, after those of red and green.
    Blue(ColourKeyword, Component, Component),
    /// This word alone, which has no effect.
    Only(OnlyWord),
    /// A value that has no effect, and after it this many more.
    Unused(u8),
}

/// What a keyword does in its block.
#[derive(Drop)]
pub enum Role {
    /// It ends the block.
    Closes,
    /// It opens an inner block.
    Opens(Block),
    /// It takes values.
    Takes(Expected),
}
