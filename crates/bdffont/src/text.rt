ghost use Rattle.std.specs.Prelude.{◌≡◌, ◌^◌, ◌<◌, ◌≤◌, [], ◌∷◌, length, find, IfSome, IsTrue, ◌↔◌, MatchOption, None, Some};
ghost use Rattle.std.specs.Str.{chars, IsUtf8};
ghost use Rattle.bdffont.specs.declared.text.TheConstants.{MAX_CHARACTERS};
ghost use Rattle.geom.specs.Range.{IsBelow};
ghost use Rattle.mapdefs.specs.FontLimits.{IsRising};
ghost use Rattle.bdffont.specs.File.{has_encoding};
ghost use Rattle.bdffont.specs.Ink.{glyph_of, advance_of, text_width, inks, left_of, last_row, first_row, bottom_of, past, inks_at, has_ink};

use geom::Pixel;
use mapdefs::{BitmapBox, Font, Glyph};

// The glyph with the encoding, by binary search.
fn find(glyphs: &[Glyph], encoding: u32) -> Option<&Glyph>
    requires { IsRising glyphs.now }
    ensures { MatchOption result (find (has_encoding encoding) glyphs.now ≡ None) (λ g. find (has_encoding encoding) glyphs.now ≡ Some g.now) }
{
    match glyphs.binary_search_by_key(&encoding, |glyph| glyph.encoding) {
        Ok(index) => Some(&glyphs[index]),
        Err(_) => None,
    }
}

/// The glyph of a character, among the glyphs of a font: its own, else that of the question mark.
pub fn glyph_of(glyphs: &[Glyph], character: u32) -> Option<&Glyph>
    requires { IsRising glyphs.now }
    ensures { MatchOption result (glyph_of glyphs.now character ≡ None) (λ g. glyph_of glyphs.now character ≡ Some g.now) }
{
    match find(glyphs, character) {
        Some(glyph) => Some(glyph),
        None => find(glyphs, 63),
    }
}

/// How far the pen advances after a character, by the glyphs of a font.
pub fn advance_of(glyphs: &[Glyph], character: u32) -> u8
    requires { IsRising glyphs.now }
    ensures { result ≡ advance_of glyphs.now character }
{
    match glyph_of(glyphs, character) {
        Some(glyph) => glyph.advance,
        None => 0,
    }
}

/// The first character of a text, and the text after it.
pub fn split_char(text: &str) -> Option<(u32, &str)>
    ensures chars { MatchOption result (chars text.now ≡ []) (λ p. chars text.now ≡ p.0 ∷ chars p.1.now) }
    ensures shorter { IfSome result (λ p. length p.1.now < length text.now) }
    ensures utf8 { IfSome result (λ p. IsUtf8 p.1.now) }
{
    let mut characters = text.chars();
    match characters.next() {
        Some(first) => Some((u32::from(first), characters.as_str())),
        None => None,
    }
}

// How many characters a text has.
fn characters_len(text: &str) -> usize
    ensures { result ≡ length (chars text.now) }
{
    text.chars().count()
}

/// The most characters of a text that is measured or drawn.
pub const MAX_CHARACTERS: usize = 256;

/// Whether a text has at most `MAX_CHARACTERS` characters, which `extent` and `ink` require.
pub fn is_short(text: &str) -> bool
    ensures { IsTrue result ↔ (length (chars text.now) ≤ MAX_CHARACTERS) }
{
    characters_len(text) <= MAX_CHARACTERS
}

/// The width and the height of a text, in pixels: the sum of the advances of its characters, and the
/// height of the font's box. A character without a glyph has the glyph 63, or no advance where the font
/// has none. It takes no memory.
///
/// The text has at most `MAX_CHARACTERS` characters, which `is_short` tests.
pub fn extent(font: &Font, text: &str) -> (u32, u32)
    requires { length (chars text.now) ≤ MAX_CHARACTERS }
    ensures width { result.0 ≡ text_width font.now.glyphs (chars text.now) }
    ensures height { result.1 ≡ font.now.bounds.height }
{
    let fields = font.get();
    let glyphs = fields.glyphs.as_slice();
    let mut width = 0;
    let mut rest = text;
    while let Some((character, after)) = split_char(rest) {
        width += u32::from(advance_of(glyphs, character));
        rest = after;
    }
    (width, u32::from(fields.bounds.height))
}

// The leftmost column of a glyph's box, where the pen has advanced so far from a text's left side.
fn left_of(left: i64, pen: u32, bounds: BitmapBox) -> i64
    requires left { IsBelow (2 ^ 44) left }
    requires pen { pen ≤ 2 ^ 16 }
    ensures value { result ≡ left_of left pen bounds }
    ensures range { IsBelow (2 ^ 45) result }
{
    left + i64::from(pen) + i64::from(bounds.xoff)
}

// The last of so many rows.
fn last_row(first: i64, height: u8) -> i64
    requires { IsBelow (2 ^ 44) first }
    ensures value { result ≡ last_row first height }
    ensures range { IsBelow (2 ^ 45) result }
{
    first + i64::from(height) - 1
}

// The first of so many rows.
fn first_row(last: i64, height: u8) -> i64
    requires { IsBelow (2 ^ 46) last }
    ensures value { result ≡ first_row last height }
    ensures range { IsBelow (2 ^ 47) result }
{
    last - (i64::from(height) - 1)
}

// The bottom row of a glyph's box, in a text with this top row and this box of its font.
fn bottom_of(top: i64, font: BitmapBox, bounds: BitmapBox) -> i64
    requires { IsBelow (2 ^ 44) top }
    ensures value { result ≡ bottom_of top font bounds }
    ensures range { IsBelow (2 ^ 46) result }
{
    last_row(top, font.height) + i64::from(font.yoff) - i64::from(bounds.yoff)
}

/// The corner of a glyph's box in a picture: its leftmost column and its first row, in the picture or off it.
#[derive(Clone, Copy)]
pub struct GlyphCorner {
    /// The leftmost column.
    pub left: i64,
    /// The first row.
    pub top: i64,
}

/// The corner of a glyph's box, in a text with its upper left pixel at a pixel and this box of its font, where
/// the pen has advanced so far.
pub fn corner_of(font: BitmapBox, at: Pixel, pen: u32, bounds: BitmapBox) -> GlyphCorner
    requires { pen ≤ 2 ^ 16 }
    ensures left { result.left ≡ left_of at.i pen bounds }
    ensures top { result.top ≡ first_row (bottom_of at.j font bounds) bounds.height }
    ensures columns { IsBelow (2 ^ 47) result.left }
    ensures rows { IsBelow (2 ^ 47) result.top }
{
    let left = left_of(at.i(), pen, bounds);
    let bottom = bottom_of(at.j(), font, bounds);
    GlyphCorner {
        left,
        top: first_row(bottom, bounds.height),
    }
}

// How far a column or a row is past another one, if it is not before it.
fn past(from: i64, to: i64) -> Option<u64>
    ensures { result ≡ past from to }
{
    if to < from {
        None
    } else {
        Some(to.abs_diff(from))
    }
}

// Whether a glyph has ink in a column and a row of its box.
fn inks(glyph: &Glyph, column: u64, row: u64) -> bool
    ensures { result ≡ inks glyph.now column row }
{
    let width = u64::from(glyph.bounds.width);
    if column >= width || row >= u64::from(glyph.bounds.height) {
        return false;
    }
    let index = (row * width + column) as usize;
    glyph.rows.as_slice().get(index).copied().unwrap_or(false)
}

/// Whether a glyph has ink in column `i` and row `j` of the picture, where its box has this corner.
pub fn inks_at(glyph: &Glyph, corner: GlyphCorner, i: i64, j: i64) -> bool
    ensures { result ≡ inks_at glyph.now (past corner.left i) (past corner.top j) }
{
    let Some(column) = past(corner.left, i) else {
        return false;
    };
    let Some(row) = past(corner.top, j) else {
        return false;
    };
    inks(glyph, column, row)
}

/// Whether a text has ink in column `i` and row `j` of the picture, where the upper left pixel of the
/// text is `at`. The pen starts on the text's left side and advances with each character. A character
/// without a glyph has the glyph 63, or no ink and no advance where the font has none. Ink may lie
/// outside of the text's extent. It takes no memory.
///
/// The text has at most `MAX_CHARACTERS` characters, which `is_short` tests.
pub fn ink(font: &Font, text: &str, at: Pixel, i: i64, j: i64) -> bool
    requires { length (chars text.now) ≤ MAX_CHARACTERS }
    ensures { result ≡ has_ink font.now (chars text.now) at i j }
{
    let fields = font.get();
    let glyphs = fields.glyphs.as_slice();
    let mut pen = 0;
    let mut rest = text;
    while let Some((character, after)) = split_char(rest) {
        if let Some(glyph) = glyph_of(glyphs, character) {
            let corner = corner_of(fields.bounds, at, pen, glyph.bounds);
            if inks_at(glyph, corner, i, j) {
                return true;
            }
            pen += u32::from(glyph.advance);
        }
        rest = after;
    }
    false
}
