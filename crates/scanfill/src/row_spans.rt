ghost use Rattle.std.specs.Prelude.{◌≡◌, ℕ, ◌≤◌, ◌<◌, ◌/◌, ◌%◌, false, ◌||◌, ◌∷◌, [], All, length, IfSome, IfNone};
ghost use Rattle.scanfill.specs.Flips.{AreRising, IsSpanOf, IsFlipOf, has_pixel, is_pixel_flipped};

use geom::PictureSide;
use std::marker::Model;

/// A span and its row.
#[derive(Clone, Copy)]
pub struct RowSpan {
    /// The row.
    pub row: u16,
    /// The first column.
    pub from: u16,
    /// The column after the last one.
    pub to: u16,
}

/// The spans between sorted flips: by row from the top, in each row from the left.
#[derive(Drop)]
pub struct RowSpans<'a> {
    indices: &'a [u32],
    width: PictureSide,
    height: PictureSide,
}

impl<'a> Model for RowSpans<'a> {
    ghost use Rattle.scanfill.specs.Flips.{AreFlipsOf, FlipsValue};

    ghost Value = { FlipsValue };

    ghost view = { λ s. record { width = s.width; height = s.height; flips = s.indices.now } };

    ghost invariant = { λ s. AreFlipsOf s.width s.height s.indices.now };
}

impl<'a> RowSpans<'a> {
    ghost use Rattle.scanfill.specs.Flips.{AreFlipsOf};

    /// The spans between flips, of a picture of that width and height.
    pub(crate) fn new(indices: &'a [u32], width: PictureSide, height: PictureSide) -> Self
        requires { AreFlipsOf width height indices.now }
        ensures { result ≡ record { width = width; height = height; flips = indices.now } }
    {
        RowSpans {
            indices,
            width,
            height,
        }
    }

    /// The next span, if there is one. It may be empty. The pixels inside are those of the span and of the spans after it.
    pub fn next(&mut self) -> Option<RowSpan>
        ensures sides { self.new ≡ record self.old { flips = self.new.flips } }
        ensures span { IfSome result (IsSpanOf self.old.width self.old.height) }
        ensures fewer { IfSome result (λ span. length self.new.flips < length self.old.flips) }
        ensures flipped { IfSome result (λ span. (i j : ℕ) → i < self.old.width →
            is_pixel_flipped self.old.flips i j ≡ (has_pixel span i j || is_pixel_flipped self.new.flips i j)) }
        ensures none { IfNone result (self.old.flips ≡ []) }
    {
        let width = self.width.pixels();
        let indices = self.indices;
        let (first, rest) = indices.split_first()?;
        let row = row_of(*first);
        let from = column_of(*first);
        if let Some((second, others)) = rest.split_first() {
            if row_of(*second) == row {
                self.indices = others;
                let to = column_of(*second);
                return Some(RowSpan { row, from, to });
            }
        }
        self.indices = rest;
        Some(RowSpan {
            row,
            from,
            to: width,
        })
    }
}

// The row of the pixel of an index.
fn row_of(index: u32) -> u16
    requires { index / 2048 < 2048 }
    ensures { result ≡ index / 2048 }
{
    (index / 2_048) as u16
}

// Its column.
fn column_of(index: u32) -> u16
    ensures { result ≡ index % 2048 }
{
    (index % 2_048) as u16
}
