ghost use Rattle.std.specs.Prelude.{◌≡◌, ◌≤◌, length, All, Ok, IfOk, IfErr};
ghost use Rattle.std.specs.Result.{IsOkAnd};
ghost use Rattle.mapdefs.specs.FontLimits.{IsBoxWithin, IsGlyphWithin, IsRising};
ghost use Rattle.mapdefs.specs.declared.limits.TheConstants.{MAX_GLYPHS};
ghost use Rattle.bdffont.specs.File.{at_end, error_on, file_of, file_within, IsFontOf, IsErrorOf};

use crate::fault::{FontError, FontFault, FontKind};
use crate::glyphs::by_encoding;
use crate::line::split_line;
use crate::section::{ReaderState, Section};
use crate::step::LineError;
use mapdefs::{BitmapBox, Font, FontFields, Glyph, Items, MAX_GLYPH_SIDE};
use std::alloc::Global;

// The error where reading stops at a line.
fn error_on(line: u64, stop: LineError) -> FontError
    ensures { result ≡ error_on line stop }
{
    match stop {
        LineError::Fault(kind) => FontError::Fault(FontFault { line, kind }),
        LineError::NoMemory => FontError::NoMemory,
    }
}

// The font of a file whose lines are all read, or the fault of its end.
fn at_end(line: u64, section: Section) -> Result<FontFields, FontFault>
    ensures { result ≡ at_end line section }
{
    match section {
        Section::Before(_) => Err(FontFault {
            line,
            kind: FontKind::Start,
        }),
        Section::Ended(font) => Ok(font),
        _ => Err(FontFault {
            line,
            kind: FontKind::Truncated,
        }),
    }
}

// What the lines of a file say, with the glyphs in its order.
fn read_lines(alloc: Global, most: u8, bytes: &[u8]) -> Result<FontFields, FontError>
    ensures file { IfOk result (λ file. file_within most bytes.now ≡ Ok file) }
    ensures error { IfErr result (IsErrorOf (file_within most bytes.now)) }
{
    let mut state = ReaderState::start(most);
    let mut rest = bytes;
    let mut line = 1;
    while let Some((text, after)) = split_line(rest) {
        match state.read_line(text, alloc) {
            Ok(next) => state = next,
            Err(stop) => return Err(error_on(line, stop)),
        }
        rest = after;
        line += 1;
    }
    match at_end(line, state.section) {
        Ok(file) => Ok(file),
        Err(fault) => Err(FontError::Fault(fault)),
    }
}

// The font with a side, a box, and glyphs by rising encodings.
fn font_of(side: u8, bounds: BitmapBox, glyphs: Vec<Glyph>) -> Font
    requires bounds { IsBoxWithin side bounds }
    requires count { length glyphs.items ≤ MAX_GLYPHS }
    requires each { All (IsGlyphWithin side) glyphs.items }
    requires rising { IsRising glyphs.items }
    ensures side { result.side ≡ side }
    ensures bounds { result.bounds ≡ bounds }
    ensures glyphs { result.glyphs ≡ glyphs.items }
{
    Font::new(FontFields {
        side,
        bounds,
        glyphs: Items::of(glyphs),
    })
}

/// Reads a BDF file in one pass: the font that it describes, or its first fault with its line. Sides and
/// offsets of its boxes are at most `MAX_GLYPH_SIDE` pixels. For glyphs with the same encoding the first counts.
///
/// `file_of` is either what the file says or a fault, so the two clauses say when each comes: unless
/// memory is refused, which is `NoMemory`, the call gives the font or the fault. The memory that it
/// takes is in proportion to the file, and a file that is refused leaves none behind.
pub fn read(alloc: Global, bytes: &[u8]) -> Result<Font, FontError>
    ensures font { IfOk result (λ font. IsOkAnd (file_of bytes.now) (λ file. IsFontOf file font)) }
    ensures error { IfErr result (IsErrorOf (file_of bytes.now)) }
{
    read_within(alloc, MAX_GLYPH_SIDE, bytes)
}

/// Reads a BDF file as `read` does, with another greatest side and offset of its boxes, in pixels: `most`. A box
/// beyond it is a fault of kind `Limit` on its line.
pub fn read_within(alloc: Global, most: u8, bytes: &[u8]) -> Result<Font, FontError>
    ensures font { IfOk result (λ font. IsOkAnd (file_within most bytes.now) (λ file. IsFontOf file font)) }
    ensures error { IfErr result (IsErrorOf (file_within most bytes.now)) }
{
    let file = read_lines(alloc, most, bytes)?;
    let (side, bounds) = (file.side, file.bounds);
    let glyphs = by_encoding(alloc, file.glyphs.into_vec())?;
    Ok(font_of(side, bounds, glyphs))
}
