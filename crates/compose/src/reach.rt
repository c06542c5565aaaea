//! How far the ink of a text reaches from its corner.

ghost use Rattle.std.specs.Prelude.{◌≡◌, ◌≤◌, ◌≤ℤ◌, ◌+ℤ◌, ◌^◌, true, false, pos};
ghost use Rattle.geom.specs.Range.{IsBelow};
ghost use Rattle.compose.specs.Reach.{ShowsNothing, line_of, pixels_of};

use geom::{PictureSide, Pixel};
use labelink::Reach;
use mapdefs::{BitmapBox, Font};

// The first row under the line that the letters of a text stand on.
fn line_of(font: BitmapBox, at: Pixel) -> i64
    ensures value { result ≡ line_of font at }
    ensures range { IsBelow (2 ^ 45) result }
{
    at.j() + i64::from(font.height) + i64::from(font.yoff)
}

// Whether a column, or a row, comes so many or more after the last of a side.
fn is_after(at: i64, side: PictureSide, more: u16) -> bool
    requires { IsBelow (2 ^ 45) at }
    ensures { result ≡ true → (pos side +ℤ pos more) ≤ℤ at }
{
    at >= i64::from(side.pixels()) + i64::from(more)
}

// How many columns and rows from ink an outline reaches.
fn pixels_of(reach: Reach) -> u16
    ensures value { result ≡ pixels_of reach }
    ensures most { result ≤ 255 }
{
    match reach {
        Reach::Neighbours => 1,
        Reach::Disc(pixels) => u16::from(pixels),
    }
}

/// The sides of the picture on which a text may show.
#[derive(Clone, Copy)]
pub struct Sides {
    /// The number of columns.
    pub width: PictureSide,
    /// The number of rows.
    pub height: PictureSide,
}

/// Whether a text in the font whose corner is a pixel may have ink, or an outline of that reach, on a picture. It looks at no
/// glyph: ink lies at most the font's side left of the corner, and at most twice that above and once below the line that
/// letters stand on, and an outline as many pixels further as it reaches.
pub fn may_show(font: &Font, reach: Reach, at: Pixel, sides: Sides) -> bool
    ensures { result ≡ false → ShowsNothing font.now reach at sides.width sides.height }
{
    let fields = font.get();
    let side = u16::from(fields.side);
    let line = line_of(fields.bounds, at);
    let more = pixels_of(reach);
    if is_after(at.i(), sides.width, side + more) {
        return false;
    }
    if is_after(line, sides.height, 2 * side + more) {
        return false;
    }
    line > -i64::from(side + more)
}
