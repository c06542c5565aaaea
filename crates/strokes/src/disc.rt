ghost use Rattle.std.specs.Prelude.{◌≡◌, ℕ, ◌<◌, ◌≤◌, ◌*◌, ◌^◌, ◌&&◌, ◌||◌, pos, false, not};
ghost use Rattle.geom.specs.Device.{centre, pixel_centre};
ghost use Rattle.geom.specs.Range.{IsBelow};
ghost use Rattle.geom.specs.declared.side.TheConstants.{MAX_PICTURE_SIDE};
ghost use Rattle.mapdefs.specs.declared.limits.TheConstants.{MAX_FINE_SQUARE};
ghost use Rattle.scanfill.specs.Runs.{has_column};
ghost use Rattle.strokes.specs.Disc.{covers_disc, disc_of, is_within_half, ring_of};
ghost use Rattle.strokes.specs.Round.{square_of_half};

use crate::round_columns::{centres_between, columns_within};
use geom::Device;
use scanfill::Span;
use std::marker::Model;

/// A disc round a device point, which may have a round hole in its middle.
#[derive(Clone, Copy)]
pub struct Disc {
    at: Device,
    size: u16,
    hole: u16,
}

impl Model for Disc {
    ghost use Rattle.strokes.specs.Disc.{DiscValue, IsDisc};

    ghost Value = { DiscValue };

    ghost view = { λ d. record { at = d.at; size = d.size; hole = d.hole } };

    ghost invariant = { λ d. IsDisc (record { at = d.at; size = d.size; hole = d.hole }) };

    ghost inverse = { λ d. record { at = d.at; size = d.size; hole = d.hole } };
}

impl Disc {
    /// The disc of a size, in pixels, round a point. The size is at most `MAX_FINE_SQUARE`.
    pub fn new(at: Device, size: u16) -> Self
        requires { size ≤ MAX_FINE_SQUARE }
        ensures { result ≡ disc_of at size }
    {
        Disc { at, size, hole: 0 }
    }

    /// The ring of a width in the disc of a size round a point: all of the disc where the width is half the size or more.
    pub fn ring(at: Device, size: u16, width: u8) -> Self
        requires { size ≤ MAX_FINE_SQUARE }
        ensures { result ≡ ring_of at size width }
    {
        Disc {
            at,
            size,
            hole: size.saturating_sub(2 * u16::from(width)),
        }
    }

    /// The rows, of a picture of so many columns and rows, outside of which it covers no pixel.
    pub fn rows(self, width: u16, height: u16) -> Span
        ensures none { (i j : ℕ) → i < width → j < height → has_column result j ≡ false → covers_disc self (pixel_centre (pos i) (pos j)) ≡ false }
        ensures within { result.to ≤ height }
    {
        let columns = centres_within(self.size, self.at.x(), width);
        if columns.from >= columns.to {
            return Span { from: 0, to: 0 };
        }
        centres_within(self.size, self.at.y(), height)
    }

    /// The columns of a row, of so many, that it covers: those before its hole and those behind it.
    pub fn columns(self, row: u16, end: u16) -> (Span, Span)
        requires { row < MAX_PICTURE_SIDE }
        ensures all { (i : ℕ) → i < end → (has_column result.0 i || has_column result.1 i) ≡ covers_disc self (pixel_centre (pos i) (pos row)) }
        ensures left { result.0.from ≤ result.0.to }
        ensures right { result.1.from ≤ result.1.to }
        ensures left_end { result.0.to ≤ end }
        ensures right_end { result.1.to ≤ end }
    {
        let disc = columns_within(square_of_half(self.size), self.at, row, end);
        let hole = columns_within(square_of_half(self.hole) - 1, self.at, row, end);
        without(disc, hole)
    }
}

// The square of half a size, in sixteenths of a pixel.
fn square_of_half(size: u16) -> i64
    requires { size ≤ MAX_FINE_SQUARE }
    ensures value { result ≡ square_of_half size }
    ensures range { IsBelow (2 ^ 27) result }
{
    let half = 8 * i64::from(size);
    half * half
}

// The columns, or the rows, of so many, whose centres lie at most half a size away from a number.
fn centres_within(size: u16, at: i64, end: u16) -> Span
    requires size { size ≤ MAX_FINE_SQUARE }
    requires at { IsBelow (2 ^ 47) at }
    ensures all { (i : ℕ) → i < end → has_column result i ≡ is_within_half size at (centre (pos i)) }
    ensures within { result.to ≤ end }
{
    let half = 8 * i64::from(size);
    centres_between(at - half, at + half, end)
}

// The columns of a span before those of another one, and those behind them.
fn without(span: Span, hole: Span) -> (Span, Span)
    ensures all { (i : ℕ) → (has_column result.0 i || has_column result.1 i) ≡ (has_column span i && not (has_column hole i)) }
    ensures left { result.0.from ≤ result.0.to }
    ensures right { result.1.from ≤ result.1.to }
    ensures left_end { result.0.to ≤ span.to }
    ensures right_end { result.1.to ≤ span.to }
{
    let none = Span { from: 0, to: 0 };
    if span.from >= span.to {
        return (none, none);
    }
    let left = Span {
        from: span.from,
        to: hole.from.clamp(span.from, span.to),
    };
    let right = Span {
        from: hole.to.clamp(span.from, span.to),
        to: span.to,
    };
    (left, right)
}
