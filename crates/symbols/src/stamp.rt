ghost use Rattle.std.specs.Prelude.{◌≡◌, ℕ, ◌<◌, ◌≤◌, ◌^◌, ◌&&◌, ◌+◌, ◌-◌, [], true, false, pos, ◌-ℤ◌, ◌/◌, None, Some, length, min, slice_get, OnOk};
ghost use Rattle.clip.specs.EdgeClass.{has_row};
ghost use Rattle.geom.specs.Range.{IsBelow};
ghost use Rattle.geom.specs.declared.side.TheConstants.{MAX_PICTURE_SIDE};
ghost use Rattle.symbols.specs.Stamp.{covers_pixel, is_transparent, pixel_at, pixel_from, position_on, skipped};

use clip::{RowRange, clamped};
use geom::{PictureSide, Pixel};
use mapdefs::{Pixmap, Rgb};
use scanfill::{BoxShape, Cover, Span, Spans, row_of_box};
use std::alloc::AllocError;
use std::marker::Model;

/// A pixmap that is stamped round a pixel. It covers the pixels where it has another colour than 255 0 255.
#[derive(Drop)]
pub struct Stamp<'a> {
    pixmap: &'a Pixmap,
    pixel: Pixel,
}

impl<'a> Model for Stamp<'a> {
    ghost use Rattle.symbols.specs.Stamp.{StampValue};

    ghost Value = { StampValue };

    ghost view = { λ s. record { pixmap = s.pixmap.now; pixel = s.pixel } };
}

impl<'a> Stamp<'a> {
    /// The pixmap, stamped round a pixel: half of its columns lie left of it and half of its rows above
    /// it, a half rounded down.
    pub fn new(pixmap: &'a Pixmap, pixel: Pixel) -> Self
        ensures { result ≡ record { pixmap = pixmap.now; pixel = pixel } }
    {
        Stamp { pixmap, pixel }
    }

    /// The colour of the pixel in column `i` and row `j`, which it covers.
    #[tactic(auto, unfolding(crate::specs::Stamp::covers_pixel))]
    pub fn colour(&self, i: u16, j: u16) -> Rgb
        requires { covers_pixel self.now (pos i) (pos j) ≡ true }
        ensures { pixel_at self.now (pos i) (pos j) ≡ Some result }
    {
        self.pixel_at(i, j).unwrap()
    }

    /// The part of the pixmap that falls into a row of a picture of so many columns, 255 0 255 included.
    pub fn row_pixels(&self, j: u16, end: u16) -> RowPixels<'a>
        ensures within { result.from + length result.colours.now ≤ end }
        ensures pixels { (i : ℕ) → i < end → pixel_from result.from result.colours.now i ≡ pixel_at self.now (pos i) (pos j) }
    {
        let fields = self.pixmap.get();
        let columns = span_on(fields.width, self.pixel.i(), end);
        let Some(row) = position_on(fields.height, self.pixel.j(), j) else {
            return no_pixels();
        };
        if columns.from >= columns.to {
            return no_pixels();
        }
        let left = skipped(fields.width, self.pixel.i());
        let start = usize::from(row) * usize::from(fields.width) + usize::from(left);
        let count = usize::from(columns.to - columns.from);
        RowPixels {
            from: columns.from,
            colours: part_of(fields.pixels.as_slice(), start, count),
        }
    }

    // The pixmap's pixel that falls into a column and a row.
    fn pixel_at(&self, i: u16, j: u16) -> Option<Rgb>
        ensures { result ≡ pixel_at self.now (pos i) (pos j) }
    {
        let fields = self.pixmap.get();
        let column = position_on(fields.width, self.pixel.i(), i)?;
        let row = position_on(fields.height, self.pixel.j(), j)?;
        let index = usize::from(row) * usize::from(fields.width) + usize::from(column);
        colour_at(fields.pixels.as_slice(), index)
    }
}

// No pixels of a row.
fn no_pixels<'a>() -> RowPixels<'a>
    ensures from { result.from ≡ 0 }
    ensures colours { result.colours.now ≡ [] }
{
    RowPixels {
        from: 0,
        colours: &[],
    }
}

// So many colours from an index on.
fn part_of(pixels: &[Rgb], start: usize, count: usize) -> &[Rgb]
    requires { start + count ≤ length pixels.now }
    ensures count { length result.now ≡ count }
    ensures part { (k : ℕ) → k < count → slice_get result.now k ≡ slice_get pixels.now (start + k) }
{
    &pixels[start..start + count]
}

// The colour of an index, if there is one.
fn colour_at(pixels: &[Rgb], index: usize) -> Option<Rgb>
    ensures { result ≡ slice_get pixels.now index }
{
    pixels.get(index).copied()
}

// Where a column or row of the picture lies on a side of the pixmap, if it does.
fn position_on(side: u16, at: i64, index: u16) -> Option<u16>
    requires { IsBelow (2 ^ 44) at }
    ensures { result ≡ position_on side at (pos index) }
{
    let apart = i64::from(index) - (at - i64::from(side / 2));
    if 0 <= apart && apart < i64::from(side) {
        Some(apart as u16)
    } else {
        None
    }
}

/// Some colours of a pixmap that fall into a row of a picture, from a column on.
#[derive(Clone, Copy)]
pub struct RowPixels<'a> {
    /// The column that the first one falls into.
    pub from: u16,
    pub colours: &'a [Rgb],
}

impl Cover for Stamp<'_> {
    ghost covered = { λ s i j. covers_pixel s (pos i) (pos j) };

    fn covers(&self, i: u16, j: u16) -> bool {
        self.has_pixel(i, j)
    }

    fn rows(&self, width: PictureSide, height: PictureSide) -> RowRange {
        let columns = self.columns(width.pixels());
        if columns.from >= columns.to {
            return RowRange { from: 0, to: 0 };
        }
        let rows = span_on(self.pixmap.get().height, self.pixel.j(), height.pixels());
        RowRange {
            from: rows.from,
            to: rows.to,
        }
    }

    fn row(&self, j: u16, width: PictureSide, out: &mut Spans) -> Result<(), AllocError> {
        row_of_box(self, j, width, out)
    }
}

impl BoxShape for Stamp<'_> {
    ghost covered = { λ s i j. covers_pixel s (pos i) (pos j) };

    #[tactic(auto, unfolding(crate::specs::Stamp::covers_pixel))]
    fn has_pixel(&self, i: u16, j: u16) -> bool {
        match self.pixel_at(i, j) {
            Some(colour) => !is_transparent(colour),
            None => false,
        }
    }

    fn columns(&self, end: u16) -> Span {
        span_on(self.pixmap.get().width, self.pixel.i(), end)
    }
}

// How many columns, or rows, of a side of the pixmap lie before the picture's first one, or all.
fn skipped(side: u16, at: i64) -> u16
    requires { IsBelow (2 ^ 44) at }
    ensures { result ≡ min (skipped side at) side }
{
    clamped(i128::from(i64::from(side / 2) - at), side)
}

// The columns, or the rows, of so many, that lie on a side of the pixmap.
fn span_on(side: u16, at: i64, end: u16) -> Span
    requires { IsBelow (2 ^ 44) at }
    ensures rising { result.from ≤ result.to }
    ensures within { result.to ≤ end }
    ensures before { (i : ℕ) → i < result.from → position_on side at (pos i) ≡ None }
    ensures after { (i : ℕ) → result.to ≤ i → i < end → position_on side at (pos i) ≡ None }
    ensures on { (i : ℕ) → result.from ≤ i → i < result.to → position_on side at (pos i) ≡ Some (i - result.from + skipped side at) }
    ensures part { result.from < result.to → result.to - result.from + skipped side at ≤ side }
{
    let first = at - i64::from(side / 2);
    Span::clipped(first, first + i64::from(side), end)
}

/// Whether the colour means none.
pub fn is_transparent(colour: Rgb) -> bool
    ensures { result ≡ is_transparent colour }
{
    colour.red == 255 && colour.green == 0 && colour.blue == 255
}
