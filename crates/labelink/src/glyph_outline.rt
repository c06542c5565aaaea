ghost use Rattle.std.specs.Prelude.{◌≡◌, ℕ, ◌+◌, ◌<◌, ◌≤◌, ◌^◌, ◌||◌, pos, ◌+ℤ◌, ◌-ℤ◌, ◌<ℤ◌, ◌≤ℤ◌};
ghost use Rattle.geom.specs.Range.{IsBelow};
ghost use Rattle.labelink.specs.Ink.{covers_glyph, outlines_glyph};
ghost use Rattle.labelink.specs.declared.reach.Reach.TheVariants.{Neighbours};

use crate::placed_glyph::PlacedGlyph;
use clip::RowRange;
use geom::PictureSide;
use scanfill::{BoxShape, Cover, Span, Spans, row_of_box};
use std::alloc::AllocError;
use std::marker::Model;

/// The outline of a glyph on the picture: the pixels of which one of the eight neighbours is covered by the glyph.
#[derive(Drop)]
pub struct GlyphOutline<'a> {
    glyph: PlacedGlyph<'a>,
}

impl<'a> Model for GlyphOutline<'a> {
    ghost use Rattle.labelink.specs.Ink.{GlyphValue};

    ghost Value = { GlyphValue };

    ghost view = { λ o. o.glyph };
}

// The columns, or the rows, of so many, that lie on a side of a glyph or next to it.
fn span_round(side: u8, at: i64, end: u16) -> Span
    requires { IsBelow (2 ^ 47) at }
    ensures rising { result.from ≤ result.to }
    ensures within { result.to ≤ end }
    ensures before { (i : ℕ) → i < result.from → pos (i + 1) <ℤ at }
    ensures after { (i : ℕ) → result.to ≤ i → i < end → (at +ℤ pos (side + 1)) ≤ℤ pos i }
{
    Span::clipped(at - 1, at + i64::from(side) + 1, end)
}

impl<'a> GlyphOutline<'a> {
    /// The outline of that glyph.
    pub fn of(glyph: &PlacedGlyph<'a>) -> Self
        ensures { result ≡ glyph.now }
    {
        GlyphOutline {
            glyph: glyph.copy(),
        }
    }

    // Whether the glyph covers the pixel before or after one of a row.
    fn covers_beside(&self, i: u16, j: i64) -> bool
        requires { IsBelow (2 ^ 32) j }
        ensures { result ≡ (covers_glyph self.now (pos i -ℤ pos 1) j || covers_glyph self.now (pos (i + 1)) j) }
    {
        let i = i64::from(i);
        self.glyph.inks(i - 1, j) || self.glyph.inks(i + 1, j)
    }

    // Whether it covers one of these or that pixel itself.
    fn covers_near(&self, i: u16, j: i64) -> bool
        requires { IsBelow (2 ^ 32) j }
        ensures { result ≡ (covers_glyph self.now (pos i -ℤ pos 1) j || (covers_glyph self.now (pos i) j || covers_glyph self.now (pos (i + 1)) j)) }
    {
        self.glyph.inks(i64::from(i), j) || self.covers_beside(i, j)
    }

    // Whether it covers a neighbour in the same row or in the one below.
    fn covers_beside_or_below(&self, i: u16, j: u16) -> bool
        ensures { let covers = covers_glyph self.now in result ≡
            ((covers (pos i -ℤ pos 1) (pos j) || covers (pos (i + 1)) (pos j))
            || (covers (pos i -ℤ pos 1) (pos (j + 1)) || (covers (pos i) (pos (j + 1)) || covers (pos (i + 1)) (pos (j + 1))))) }
    {
        let j = i64::from(j);
        self.covers_beside(i, j) || self.covers_near(i, j + 1)
    }

    /// Whether the glyph covers a neighbour of the pixel in a column and a row.
    pub fn is_outlined(&self, i: u16, j: u16) -> bool
        ensures { result ≡ outlines_glyph Neighbours self.now (pos i) (pos j) }
    {
        self.covers_near(i, i64::from(j) - 1) || self.covers_beside_or_below(i, j)
    }
}

impl Cover for GlyphOutline<'_> {
    ghost covered = { λ o i j. outlines_glyph Neighbours o (pos i) (pos j) };

    fn covers(&self, i: u16, j: u16) -> bool {
        self.is_outlined(i, j)
    }

    fn rows(&self, _width: PictureSide, height: PictureSide) -> RowRange {
        let (side, top) = self.glyph.rows_of_box();
        let rows = span_round(side, top, height.pixels());
        RowRange {
            from: rows.from,
            to: rows.to,
        }
    }

    fn row(&self, j: u16, width: PictureSide, out: &mut Spans) -> Result<(), AllocError> {
        row_of_box(self, j, width, out)
    }
}

impl BoxShape for GlyphOutline<'_> {
    ghost covered = { λ o i j. outlines_glyph Neighbours o (pos i) (pos j) };

    fn has_pixel(&self, i: u16, j: u16) -> bool {
        self.is_outlined(i, j)
    }

    // The box is that of the glyph with one more column on each side.
    fn columns(&self, end: u16) -> Span {
        let (side, left) = self.glyph.columns_of_box();
        span_round(side, left, end)
    }
}
