use mapwords::{CountKeyword, Expected, OnlyWord};
use std::alloc::{AllocError, Global};

// What is expected, where that is one text.
fn plain_text(expected: &Expected) -> &'static str {
    match *expected {
        Expected::Geometry => "POINT, LINE or POLYGON",
        Expected::Table =>
            "the name of a file that ends in .csv: MapServer's other sources aren't supported",
        Expected::Pixmap => "PIXMAP, or ELLIPSE after a WMS_SMOOTHING above 1",
        Expected::SymbolType => "PIXMAP or ELLIPSE",
        Expected::Radii(_) => "1, 1 and END",
        Expected::Filled => "TRUE alone",
        Expected::Position => "UL, UC, UR, CL, CC, CR, LL, LC, LR or AUTO",
        Expected::Flag(_) => "TRUE or FALSE",
        Expected::Scale(_) => "a number from -1000000000000 to 1000000000000",
        Expected::Rule => "a text, a list or an expression",
        Expected::West | Expected::South(_) => "a number from -1000 to 1000",
        Expected::East(..) => "a number up to 1000 that is greater than the first",
        Expected::North(..) => "a number up to 1000 that is greater than the second",
        Expected::Colour(_) => "'#rrggbb' or three counts from -1 to 255",
        Expected::Green(..) | Expected::Blue(..) => "three counts from -1 to 255",
        Expected::Only(OnlyWord::Pixels) => "PIXELS alone",
        Expected::Only(OnlyWord::On) => "ON alone",
        Expected::Formats =>
            "image/png, image/x-portable-pixmap and image/x-portable-arbitrarymap, with spaces between them",
        Expected::Systems => "EPSG:3857 alone",
        Expected::Smoothing => "1, 2, 3 or 4",
        Expected::ConfigKey =>
            "a key: after LABELFONT and a space comes a name of letters, digits, - and _",
        // Texts, settings, and what has no effect.
        _ => "a word or a quoted text",
    }
}

/// What is expected where a value is wrong. The error is that memory was refused.
pub fn expected_text(alloc: Global, expected: &Expected) -> Result<String, AllocError> {
    match *expected {
        Expected::Count(CountKeyword::MinDistance) => {
            let most = CountKeyword::MinDistance.most();
            format!(in alloc; "a count from -1 to {most}")
        }
        Expected::Count(keyword) => {
            let (least, most) = (keyword.least(), keyword.most());
            format!(in alloc; "a count from {least} to {most}")
        }
        _ => String::from_str(alloc, plain_text(expected)),
    }
}
