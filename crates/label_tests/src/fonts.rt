use bdffont::{FontError, read};
use mapdefs::{Font, Items};
use std::alloc::{AllocError, Global};

// A font of one glyph, 2 by 2 pixels of which the lower right one has no ink, that advances by 3.
const TINY: &str = "\
STARTFONT 2.1\n\
FONT tiny\n\
SIZE 2 75 75\n\
FONTBOUNDINGBOX 2 2 0 0\n\
CHARS 1\n\
STARTCHAR A\n\
ENCODING 65\n\
SWIDTH 1440 0\n\
DWIDTH 3 0\n\
BBX 2 2 0 0\n\
BITMAP\n\
C0\n\
80\n\
ENDCHAR\n\
ENDFONT";

// A font of 5 rows with two glyphs, of which the one advances by 2 and the other by 5.
const UNEVEN: &str = "\
STARTFONT 2.1\n\
FONT uneven\n\
SIZE 5 75 75\n\
FONTBOUNDINGBOX 4 5 0 -1\n\
CHARS 2\n\
STARTCHAR A\n\
ENCODING 65\n\
SWIDTH 400 0\n\
DWIDTH 2 0\n\
BBX 1 1 0 0\n\
BITMAP\n\
80\n\
ENDCHAR\n\
STARTCHAR B\n\
ENCODING 66\n\
SWIDTH 1000 0\n\
DWIDTH 5 0\n\
BBX 1 1 0 0\n\
BITMAP\n\
80\n\
ENDCHAR\n\
ENDFONT";

// A font without rows, whose texts have boxes without a pixel until these are grown.
const FLAT: &str = "\
STARTFONT 2.1\n\
FONT flat\n\
SIZE 2 75 75\n\
FONTBOUNDINGBOX 2 0 0 0\n\
CHARS 1\n\
STARTCHAR A\n\
ENCODING 65\n\
SWIDTH 1440 0\n\
DWIDTH 3 0\n\
BBX 0 0 0 0\n\
BITMAP\n\
ENDCHAR\n\
ENDFONT";

/// The font of a name: `tiny`, `uneven` or `flat`. A font that can't be read ends a test as one for which memory
/// is refused.
pub(crate) fn font_of(alloc: Global, name: &str) -> Result<Font, AllocError> {
    let source = match name {
        "tiny" => TINY,
        "uneven" => UNEVEN,
        _ => FLAT,
    };
    match read(alloc, source.as_bytes()) {
        Ok(font) => Ok(font),
        Err(FontError::Fault(_)) | Err(FontError::NoMemory) => Err(AllocError),
    }
}

/// The fonts of some names with `+` between them.
pub(crate) fn fonts_of(alloc: Global, names: &str) -> Result<Items<Font>, AllocError> {
    let mut fonts = Items::new(alloc);
    for name in names.split('+') {
        fonts.push(font_of(alloc, name)?)?;
    }
    Ok(fonts)
}
