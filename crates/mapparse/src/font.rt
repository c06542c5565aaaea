ghost use Rattle.std.specs.Prelude.{◌≡◌, Ok, IfOk, IfErr};
ghost use Rattle.mapwords.specs.Fault.{IsFaultOf};
ghost use Rattle.mapparse.specs.Fonts.{font_of, font_in, fonts_of, is_font, most_side, IsFontErrorOf};

use crate::files::Files;
use bdffont::{FontError, read_within};
use mapdefs::{Font, Items, MAX_FINE_GLYPH_SIDE, MAX_GLYPH_SIDE, SharedItems};
use maptree::{MapTree, Named, ParseFault, ParseKind, UsedFile, factor_in};
use mapvalues::Values;
use std::alloc::Global;

/// The greatest side and offset that the boxes of fonts may have in a map with these values, in pixels. Those of a smoothed
/// map are of its fine pictures.
pub fn most_side(given: &Values) -> u8
    ensures { result ≡ most_side given.now }
{
    if factor_in(given).times() == 1 {
        MAX_GLYPH_SIDE
    } else {
        MAX_FINE_GLYPH_SIDE
    }
}

/// The font that the bytes of a file are, with boxes of sides and offsets of at most so many pixels.
pub fn font_of(most: u8, bytes: &[u8], alloc: Global) -> Result<Font, FontError>
    ensures font { IfOk result (λ font. font_of most bytes.now ≡ Ok font) }
    ensures error { IfErr result (IsFontErrorOf (font_of most bytes.now)) }
{
    read_within(alloc, most, bytes)
}

/// Whether a file is used as a font.
pub fn is_font(used: &UsedFile) -> bool
    ensures { result ≡ is_font used.now }
{
    used.font.is_some()
}

// The font in a file.
fn font_in(most: u8, files: &Files, file: &Named, alloc: Global) -> Result<Font, ParseFault>
    ensures font { IfOk result (λ font. font_in most files.now file.now ≡ Ok font) }
    ensures fault { IfErr result (IsFaultOf (font_in most files.now file.now)) }
{
    let line = file.line;
    let Some(bytes) = files.bytes(file.text.as_str()) else {
        return Err(ParseFault::At {
            line,
            kind: ParseKind::MissingFile,
        });
    };
    match font_of(most, bytes, alloc) {
        Ok(font) => Ok(font),
        Err(FontError::NoMemory) => Err(ParseFault::NoMemory),
        Err(FontError::Fault(_)) => Err(ParseFault::At {
            line,
            kind: ParseKind::BadFile,
        }),
    }
}

/// The fonts of a map, in the order of their uses.
pub fn fonts_of(
    tree: &MapTree,
    files: &Files,
    alloc: Global,
) -> Result<SharedItems<Font>, ParseFault>
    ensures fonts { IfOk result (λ made. fonts_of files.now tree.now ≡ Ok made) }
    ensures fault { IfErr result (IsFaultOf (fonts_of files.now tree.now)) }
{
    let most = most_side(&tree.values);
    let mut fonts = Items::new(alloc);
    let all = tree.files.as_slice();
    for used in all {
        if is_font(used) {
            fonts.push(font_in(most, files, &used.file, alloc)?)?;
        }
    }
    Ok(SharedItems::new(alloc, fonts)?)
}
