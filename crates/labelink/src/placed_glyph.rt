ghost use Rattle.std.specs.Prelude.{◌≡◌, ℕ, ◌<◌, ◌≤◌, ◌^◌, pos, ◌+ℤ◌, ◌<ℤ◌, ◌≤ℤ◌, [], OnOk, OnErr};
ghost use Rattle.bdffont.specs.Ink.{inks};
ghost use Rattle.scanfill.specs.Runs.{AreRunsFrom};
ghost use Rattle.geom.specs.Range.{IsBelow};
ghost use Rattle.labelink.specs.Ink.{covers_glyph};

use bdffont::{GlyphCorner, inks_at};
use clip::RowRange;
use geom::PictureSide;
use mapdefs::Glyph;
use scanfill::{BoxShape, Cover, Span, Spans, row_of_box};
use std::alloc::AllocError;
use std::marker::Model;

/// A glyph on the picture.
#[derive(Drop)]
pub struct PlacedGlyph<'a> {
    glyph: &'a Glyph,
    left: i64,
    top: i64,
}

impl<'a> Model for PlacedGlyph<'a> {
    ghost use Rattle.labelink.specs.Ink.{GlyphValue, IsPlacedGlyph};

    ghost Value = { GlyphValue };

    ghost view = { λ g. record { glyph = g.glyph.now; left = g.left; top = g.top } };

    ghost invariant = { λ g. IsPlacedGlyph (record { glyph = g.glyph.now; left = g.left; top = g.top }) };
}

impl<'a> PlacedGlyph<'a> {
    /// The glyph with its leftmost column and its first row.
    pub fn new(glyph: &'a Glyph, left: i64, top: i64) -> Self
        requires left { IsBelow (2 ^ 47) left }
        requires top { IsBelow (2 ^ 47) top }
        ensures { result ≡ record { glyph = glyph.now; left = left; top = top } }
    {
        PlacedGlyph { glyph, left, top }
    }

    /// A copy of the glyph, with the same corner.
    pub fn copy(&self) -> Self
        ensures { result ≡ self.now }
    {
        PlacedGlyph {
            glyph: self.glyph,
            left: self.left,
            top: self.top,
        }
    }

    /// How many columns its box has, and the leftmost of them.
    pub fn columns_of_box(&self) -> (u8, i64)
        ensures side { result.0 ≡ self.now.glyph.bounds.width }
        ensures left { result.1 ≡ self.now.left }
        ensures limits { IsBelow (2 ^ 47) result.1 }
    {
        (self.glyph.bounds.width, self.left)
    }

    /// How many rows its box has, and the first of them.
    pub fn rows_of_box(&self) -> (u8, i64)
        ensures side { result.0 ≡ self.now.glyph.bounds.height }
        ensures top { result.1 ≡ self.now.top }
        ensures limits { IsBelow (2 ^ 47) result.1 }
    {
        (self.glyph.bounds.height, self.top)
    }

    /// Leaves in `out` the longest runs of ink of a row of its box, by its own columns. Where memory is refused `out` is empty.
    pub fn ink_of_row(&self, row: u8, out: &mut Spans) -> Result<(), AllocError>
        ensures ok { OnOk result (AreRunsFrom (λ i. inks self.now.glyph i row) 0 self.now.glyph.bounds.width out.new) }
        ensures err { OnErr result (out.new ≡ []) }
    {
        out.clear();
        let width = self.glyph.bounds.width;
        if width == 0 {
            return Ok(());
        }
        let alone = PlacedGlyph::new(self.glyph, 0, 0);
        let side = PictureSide::with_last(u16::from(width - 1));
        alone.row(u16::from(row), side, out)
    }

    /// Whether it covers the pixel in a column and a row, in the picture or off it.
    pub fn inks(&self, i: i64, j: i64) -> bool
        ensures { result ≡ covers_glyph self.now i j }
    {
        let corner = GlyphCorner {
            left: self.left,
            top: self.top,
        };
        inks_at(self.glyph, corner, i, j)
    }

    /// Whether it covers the pixel in a column and a row.
    pub fn is_inked(&self, i: u16, j: u16) -> bool
        ensures { result ≡ covers_glyph self.now (pos i) (pos j) }
    {
        self.inks(i64::from(i), i64::from(j))
    }
}

// The columns, or the rows, of so many, that lie on a side of a glyph.
fn span_on(side: u8, at: i64, end: u16) -> Span
    requires { IsBelow (2 ^ 47) at }
    ensures rising { result.from ≤ result.to }
    ensures within { result.to ≤ end }
    ensures before { (i : ℕ) → i < result.from → pos i <ℤ at }
    ensures after { (i : ℕ) → result.to ≤ i → i < end → (at +ℤ pos side) ≤ℤ pos i }
{
    Span::clipped(at, at + i64::from(side), end)
}

impl Cover for PlacedGlyph<'_> {
    ghost covered = { λ g i j. covers_glyph g (pos i) (pos j) };

    fn covers(&self, i: u16, j: u16) -> bool {
        self.is_inked(i, j)
    }

    fn rows(&self, _width: PictureSide, height: PictureSide) -> RowRange {
        let rows = span_on(self.glyph.bounds.height, self.top, height.pixels());
        RowRange {
            from: rows.from,
            to: rows.to,
        }
    }

    fn row(&self, j: u16, width: PictureSide, out: &mut Spans) -> Result<(), AllocError> {
        row_of_box(self, j, width, out)
    }
}

impl BoxShape for PlacedGlyph<'_> {
    ghost covered = { λ g i j. covers_glyph g (pos i) (pos j) };

    fn has_pixel(&self, i: u16, j: u16) -> bool {
        self.is_inked(i, j)
    }

    fn columns(&self, end: u16) -> Span {
        span_on(self.glyph.bounds.width, self.left, end)
    }
}
