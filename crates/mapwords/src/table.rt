ghost use Rattle.std.specs.Prelude.{◌≡◌, ◌≤◌};
ghost use Rattle.mapwords.specs.Table.{least_of, most_of, text_number, count_number, flag_number, scale_number, colour_number};

use mapdefs::{
    MAX_BUFFER, MAX_DISTANCE, MAX_LINE_WIDTH, MAX_OUTLINE_WIDTH, MAX_PRIORITY, MAX_SQUARE,
    MAX_TOLERANCE,
};

/// The keywords that take a text, and the keys of METADATA, CONFIG and PROCESSING that do.
#[derive(Clone, Copy)]
pub enum TextKeyword {
    Name,
    ClassItem,
    LabelItem,
    Template,
    /// The name of the file that a layer's table is in.
    Data,
    /// The column of longitudes in a layer's table.
    CsvX,
    /// The column of latitudes.
    CsvY,
    WmsTitle,
    OwsTitle,
    /// The address of the service.
    WmsOnlineResource,
    OwsOnlineResource,
    /// The name of the file that a symbol's pixmap is in.
    Image,
    /// The name of the symbol that a style draws points with.
    Symbol,
    /// The name of the font of a label.
    Font,
    Text,
    Items,
    /// The width of a label's outline, which only a smoothed map judges.
    OutlineWidth,
}

/// The keywords that take a count, and the key of CONFIG that does.
#[derive(Clone, Copy)]
pub enum CountKeyword {
    /// The width of a line, in pixels.
    Width,
    /// The side of a point's square, in pixels.
    Size,
    /// How far from the queried pixel a feature counts, in pixels.
    Tolerance,
    /// The priority of a label.
    Priority,
    /// How far a label's box is widened, in pixels.
    Buffer,
    /// How far labels of one text stay apart, in pixels.
    MinDistance,
    /// The width of a label's outline in a smoothed map, in pixels.
    OutlineWidth,
}

/// The keywords that take TRUE or FALSE, and what a CONFIG offers or doesn't.
#[derive(Clone, Copy)]
pub enum FlagKeyword {
    Partials,
    Force,
    /// Pictures in the format PNG.
    Png,
    /// Pictures in web mercator.
    Mercator,
}

/// The keywords that take a scale denominator.
#[derive(Clone, Copy)]
pub enum ScaleKeyword {
    Min,
    Max,
}

/// The keywords that take a colour.
#[derive(Clone, Copy)]
pub enum ColourKeyword {
    Color,
    OutlineColor,
    /// A MAP's IMAGECOLOR, which has no effect.
    ImageColor,
}

/// The words that are the only value of a keyword.
#[derive(Clone, Copy)]
pub enum OnlyWord {
    Pixels,
    On,
}

impl TextKeyword {
    /// Its number, which no other of these keywords has.
    pub fn number(self) -> u8
        ensures { result ≡ text_number self }
    {
        self as u8
    }
}

impl CountKeyword {
    /// Its number, which no other of these keywords has.
    pub fn number(self) -> u8
        ensures { result ≡ count_number self }
    {
        self as u8
    }

    /// The least count that it takes.
    pub fn least(self) -> u16
        ensures { result ≡ least_of self }
    {
        match self {
            CountKeyword::Width
            | CountKeyword::Size
            | CountKeyword::Priority
            | CountKeyword::OutlineWidth => 1,
            CountKeyword::Tolerance | CountKeyword::Buffer | CountKeyword::MinDistance => 0,
        }
    }

    /// The greatest count that it takes.
    pub fn most(self) -> u16
        ensures { result ≡ most_of self }
    {
        match self {
            CountKeyword::Width => MAX_LINE_WIDTH.into(),
            CountKeyword::Size => MAX_SQUARE,
            CountKeyword::Tolerance => MAX_TOLERANCE.into(),
            CountKeyword::Priority => MAX_PRIORITY.into(),
            CountKeyword::Buffer => MAX_BUFFER.into(),
            CountKeyword::MinDistance => MAX_DISTANCE,
            CountKeyword::OutlineWidth => MAX_OUTLINE_WIDTH.into(),
        }
    }
}

impl FlagKeyword {
    /// Its number, which no other of these keywords has.
    pub fn number(self) -> u8
        ensures { result ≡ flag_number self }
    {
        self as u8
    }
}

impl ScaleKeyword {
    /// Its number, which no other of these keywords has.
    pub fn number(self) -> u8
        ensures { result ≡ scale_number self }
    {
        self as u8
    }
}

impl ColourKeyword {
    /// Its number, which no other of these keywords has.
    pub fn number(self) -> u8
        ensures { result ≡ colour_number self }
    {
        self as u8
    }
}
