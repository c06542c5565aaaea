use std::alloc::{AllocError, Global};

/// A query for a picture of 4 by 4 pixels. The first pair of a name counts, so that the tests put
/// others before it.
pub const QUERY: &str =
    "VERSION=1.3.0&REQUEST=GetMap&LAYERS=a&STYLES=&CRS=CRS:84&BBOX=0,0,4,4&WIDTH=4&HEIGHT=4&FORMAT=image/x-portable-pixmap";

/// A square, in rings.
pub const SQUARE: &str = "POINTS 1 1 3 1 3 3 1 3 END";

/// A map of one layer `a` with the square, in the colour 10 20 30.
pub const SQUARE_MAP: &str =
    "MAP\nLAYER\nNAME \"a\"\nTYPE POLYGON\nCLASS\nSTYLE\nCOLOR 10 20 30\nEND\nEND\nFEATURE\nPOINTS 1 1 3 1 3 3 1 3 END\nEND\nEND\nEND\n";

/// Its picture as a session writes it, worked by hand: 11 bytes of header and 48 of pixels.
pub const SQUARE_TEXT: &str = "ANSWER image/x-portable-pixmap 59\n\
50360a3420340a3235350affffffffffffffffffffffffffffff0a141e0a141e\n\
ffffffffffff0a141e0a141effffffffffffffffffffffffffffff\n";

/// A map of 2 layers and 3 features, two of them in its first layer.
pub const SOME_MAP: &str =
    "MAP LAYER NAME a TYPE POLYGON FEATURE POINTS 1 2 END END FEATURE POINTS 3 4 5 6 END END END LAYER NAME b TYPE POLYGON FEATURE POINTS 7 8 END END END END";

/// The text of a query without parameters in a session. The document has 187 bytes beside the code and the name of the
/// parameter, so 215.
pub const NO_REQUEST: &str = "ANSWER text/xml 215\n\
<?xml version=\"1.0\" encoding=\"UTF-8\"?>\n\
<ServiceExceptionReport version=\"1.3.0\" xmlns=\"http://www.opengis.net/ogc\">\n\
<ServiceException code=\"MissingParameterValue\">REQUEST</ServiceException>\n\
</ServiceExceptionReport>\n";

// The texts of the letters of a row, in the order in which they are replaced. The mapfile of a symbol's file has the
// file's name between `<` and `>`, and draws a point at the pixel 2, 1 with it.
const LETTERS: [(char, &str); 8] = [
    ('<', "MAP\nSYMBOL NAME s\nTYPE PIXMAP\nIMAGE "),
    (
        '>',
        "\nEND LAYER NAME a TYPE POINT CLASS STYLE SYMBOL s COLOR 40 50 60 END END\n\
         FEATURE POINTS 2.5 2.5 END END END END\n",
    ),
    ('*', SOME_MAP),
    ('$', SQUARE_MAP),
    ('^', QUERY),
    ('#', SQUARE_TEXT),
    ('@', NO_REQUEST),
    ('~', "\n"),
];

/// A row in which each letter is replaced by its text.
pub fn spelt(alloc: Global, row: &str) -> Result<String, AllocError> {
    let mut text = String::from_str(alloc, row)?;
    for (letter, meaning) in LETTERS {
        text = text.replace(alloc, letter, meaning)?;
    }
    Ok(text)
}

/// The parts of a row of a table, between upright lines.
pub fn columns(row: &str) -> (&str, &str, &str) {
    let (first, rest) = row.split_once('|').unwrap_or((row, ""));
    let (second, third) = rest.split_once('|').unwrap_or((rest, ""));
    (first, second, third)
}
