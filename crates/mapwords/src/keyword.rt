ghost use Rattle.std.specs.Prelude.{◌≡◌, find, map};
ghost use Rattle.std.specs.Str.{str_eq_ignore_ascii_case};
ghost use Rattle.mapwords.specs.Keyword.{spelling, spelt, plain, keywords, is_spelt, keyword_of, keyword_at, is_at, is_end};

use maplex::{Shape, Token};

/// The keywords of the language.
#[derive(Clone, Copy)]
pub enum Keyword {
    End,
    Points,
    Feature,
    Text,
    Items,
    Layer,
    Class,
    Style,
    Label,
    Name,
    GeometryType,
    Expression,
    Color,
    OutlineColor,
    Width,
    Size,
    Symbol,
    Priority,
    Position,
    AnchorPoint,
    Angle,
    Antialias,
    Buffer,
    ClassItem,
    Config,
    Data,
    Debug,
    Dump,
    Empty,
    Encoding,
    Error,
    Extent,
    Filled,
    Font,
    FontSet,
    Footer,
    Force,
    Group,
    Header,
    Image,
    ImageColor,
    ImagePath,
    ImageType,
    ImageUrl,
    LabelCache,
    LabelItem,
    LabelMaxScaleDenom,
    LabelMinScaleDenom,
    Legend,
    Log,
    Map,
    MaxScaleDenom,
    MaxSize,
    MaxWidth,
    Metadata,
    MinDistance,
    MinFeatureSize,
    MinScaleDenom,
    MinSize,
    MinWidth,
    Offset,
    OutlineWidth,
    OutputFormat,
    Partials,
    Processing,
    Projection,
    QueryMap,
    Reference,
    RepeatDistance,
    Resolution,
    ScaleBar,
    ShapePath,
    Status,
    Template,
    Title,
    Tolerance,
    ToleranceUnits,
    Transparent,
    Units,
    Validation,
    Web,
}

// Each keyword with its spelling, in the order of the enum: those first that mapfiles have most often, since a word is
// compared with them in this order.
const KEYWORDS: [(Keyword, &str); 81] = [
    (Keyword::End, "END"),
    (Keyword::Points, "POINTS"),
    (Keyword::Feature, "FEATURE"),
    (Keyword::Text, "TEXT"),
    (Keyword::Items, "ITEMS"),
    (Keyword::Layer, "LAYER"),
    (Keyword::Class, "CLASS"),
    (Keyword::Style, "STYLE"),
    (Keyword::Label, "LABEL"),
    (Keyword::Name, "NAME"),
    (Keyword::GeometryType, "TYPE"),
    (Keyword::Expression, "EXPRESSION"),
    (Keyword::Color, "COLOR"),
    (Keyword::OutlineColor, "OUTLINECOLOR"),
    (Keyword::Width, "WIDTH"),
    (Keyword::Size, "SIZE"),
    (Keyword::Symbol, "SYMBOL"),
    (Keyword::Priority, "PRIORITY"),
    (Keyword::Position, "POSITION"),
    (Keyword::AnchorPoint, "ANCHORPOINT"),
    (Keyword::Angle, "ANGLE"),
    (Keyword::Antialias, "ANTIALIAS"),
    (Keyword::Buffer, "BUFFER"),
    (Keyword::ClassItem, "CLASSITEM"),
    (Keyword::Config, "CONFIG"),
    (Keyword::Data, "DATA"),
    (Keyword::Debug, "DEBUG"),
    (Keyword::Dump, "DUMP"),
    (Keyword::Empty, "EMPTY"),
    (Keyword::Encoding, "ENCODING"),
    (Keyword::Error, "ERROR"),
    (Keyword::Extent, "EXTENT"),
    (Keyword::Filled, "FILLED"),
    (Keyword::Font, "FONT"),
    (Keyword::FontSet, "FONTSET"),
    (Keyword::Footer, "FOOTER"),
    (Keyword::Force, "FORCE"),
    (Keyword::Group, "GROUP"),
    (Keyword::Header, "HEADER"),
    (Keyword::Image, "IMAGE"),
    (Keyword::ImageColor, "IMAGECOLOR"),
    (Keyword::ImagePath, "IMAGEPATH"),
    (Keyword::ImageType, "IMAGETYPE"),
    (Keyword::ImageUrl, "IMAGEURL"),
    (Keyword::LabelCache, "LABELCACHE"),
    (Keyword::LabelItem, "LABELITEM"),
    (Keyword::LabelMaxScaleDenom, "LABELMAXSCALEDENOM"),
    (Keyword::LabelMinScaleDenom, "LABELMINSCALEDENOM"),
    (Keyword::Legend, "LEGEND"),
    (Keyword::Log, "LOG"),
    (Keyword::Map, "MAP"),
    (Keyword::MaxScaleDenom, "MAXSCALEDENOM"),
    (Keyword::MaxSize, "MAXSIZE"),
    (Keyword::MaxWidth, "MAXWIDTH"),
    (Keyword::Metadata, "METADATA"),
    (Keyword::MinDistance, "MINDISTANCE"),
    (Keyword::MinFeatureSize, "MINFEATURESIZE"),
    (Keyword::MinScaleDenom, "MINSCALEDENOM"),
    (Keyword::MinSize, "MINSIZE"),
    (Keyword::MinWidth, "MINWIDTH"),
    (Keyword::Offset, "OFFSET"),
    (Keyword::OutlineWidth, "OUTLINEWIDTH"),
    (Keyword::OutputFormat, "OUTPUTFORMAT"),
    (Keyword::Partials, "PARTIALS"),
    (Keyword::Processing, "PROCESSING"),
    (Keyword::Projection, "PROJECTION"),
    (Keyword::QueryMap, "QUERYMAP"),
    (Keyword::Reference, "REFERENCE"),
    (Keyword::RepeatDistance, "REPEATDISTANCE"),
    (Keyword::Resolution, "RESOLUTION"),
    (Keyword::ScaleBar, "SCALEBAR"),
    (Keyword::ShapePath, "SHAPEPATH"),
    (Keyword::Status, "STATUS"),
    (Keyword::Template, "TEMPLATE"),
    (Keyword::Title, "TITLE"),
    (Keyword::Tolerance, "TOLERANCE"),
    (Keyword::ToleranceUnits, "TOLERANCEUNITS"),
    (Keyword::Transparent, "TRANSPARENT"),
    (Keyword::Units, "UNITS"),
    (Keyword::Validation, "VALIDATION"),
    (Keyword::Web, "WEB"),
];

impl Keyword {
    /// How the keyword is written.
    #[tactic(auto, unfolding(crate::specs::Keyword::spelling))]
    pub fn spelling(self) -> &'static str
        ensures { result.now ≡ spelling self }
    {
        KEYWORDS[self as usize].1
    }

    // Whether the text is the keyword, in letters of either case.
    fn is_spelt(self, text: &str) -> bool
        ensures { result ≡ is_spelt text.now self }
    {
        text.eq_ignore_ascii_case(self.spelling())
    }

    // All keywords, each with its spelling.
    #[tactic(auto, unfolding(crate::specs::Keyword::spelling))]
    fn table() -> &'static [(Keyword, &'static str)]
        ensures { map plain result.now ≡ map spelt keywords }
    {
        &KEYWORDS
    }

    // The first of these keywords whose spelling the text is.
    fn first_of<'a>(keywords: &'a [(Keyword, &'a str)], text: &str) -> Option<(Keyword, &'a str)>
        ensures { result ≡ find (λ pair. str_eq_ignore_ascii_case text.now pair.1.now) keywords.now }
    {
        keywords
            .iter()
            .copied()
            .find(|pair| text.eq_ignore_ascii_case(pair.1))
    }

    /// The keyword that the text is, in letters of either case.
    pub fn of(text: &str) -> Option<Keyword>
        ensures { result ≡ keyword_of text.now }
    {
        match Keyword::first_of(Keyword::table(), text) {
            Some((keyword, _)) => Some(keyword),
            None => None,
        }
    }

    /// The keyword that the token is. Only a bare word is a keyword.
    pub fn at(token: &Token) -> Option<Keyword>
        ensures { result ≡ keyword_at token.now }
    {
        match token.shape {
            Shape::Word => Keyword::of(token.text),
            Shape::Text | Shape::Logic | Shape::List => None,
        }
    }

    /// Whether the token is the keyword.
    pub fn is_at(self, token: &Token) -> bool
        ensures { result ≡ is_at self token.now }
    {
        match token.shape {
            Shape::Word => self.is_spelt(token.text),
            Shape::Text | Shape::Logic | Shape::List => false,
        }
    }
}

/// Whether the token is the bare word END.
pub fn is_end(token: &Token) -> bool
    ensures { result ≡ is_end token.now }
{
    Keyword::End.is_at(token)
}
