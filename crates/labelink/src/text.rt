ghost use Rattle.std.specs.Prelude.{◌≡◌, ◌≤◌, length, IfOk};
ghost use Rattle.std.specs.Str.{chars};
ghost use Rattle.bdffont.specs.declared.text.TheConstants.{MAX_CHARACTERS};
ghost use Rattle.labelink.specs.Ink.{glyphs_from};

use crate::placed_glyph::PlacedGlyph;
use bdffont::{corner_of, glyph_of, split_char};
use geom::Pixel;
use mapdefs::Font;
use std::alloc::{AllocError, Global};

/// The glyphs of a text whose upper left pixel is `at`, from the first character on. A character without a
/// glyph has that of the question mark. Where the font has no question mark either, it has no glyph and no
/// advance.
///
/// The text has at most `MAX_CHARACTERS` characters, which `is_short` of `bdffont` tests.
pub fn text_glyphs<'a>(
    alloc: Global,
    font: &'a Font,
    text: &str,
    at: Pixel,
) -> Result<Vec<PlacedGlyph<'a>>, AllocError>
    requires { length (chars text.now) ≤ MAX_CHARACTERS }
    ensures { IfOk result (λ glyphs. glyphs.items ≡ glyphs_from font.now at 0 (chars text.now)) }
{
    let fields = font.get();
    let glyphs = fields.glyphs.as_slice();
    let mut placed = Vec::new(alloc);
    let mut pen = 0;
    let mut rest = text;
    while let Some((character, after)) = split_char(rest) {
        if let Some(glyph) = glyph_of(glyphs, character) {
            let corner = corner_of(fields.bounds, at, pen, glyph.bounds);
            placed.push(PlacedGlyph::new(glyph, corner.left, corner.top))?;
            pen += u32::from(glyph.advance);
        }
        rest = after;
    }
    Ok(placed)
}
