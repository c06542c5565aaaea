ghost use Rattle.std.specs.Prelude.{◌≡◌, ℕ, ◌<◌, ◌≤◌, ◌-◌, ◌^◌, true, false, pos, int_le, IfSome, None};
ghost use Rattle.geom.specs.Device.{pixel_centre};
ghost use Rattle.geom.specs.Edge.{EdgeEnds};
ghost use Rattle.geom.specs.Range.{IsBelow};
ghost use Rattle.geom.specs.declared.side.TheConstants.{MAX_PICTURE_SIDE};
ghost use Rattle.scanfill.specs.Runs.{has_column};
ghost use Rattle.strokes.specs.Chord.{IsSmallEdge, is_beside};
ghost use Rattle.strokes.specs.Round.{covers_round, is_abreast, square};
ghost use Rattle.strokes.specs.Strip.{is_small_point};

use crate::chords::Chords;
use crate::distance::apart;
use crate::root::{limit, square_of_half};
use crate::round::RoundSegment;
use crate::round_columns::{centres_about, joined};
use crate::small_distance::{centre_along, centre_aside, square_length};
use crate::strip::{apart as difference, product};
use clip::clamped;
use geom::{Device, MAX_PICTURE_SIDE, row_centre};
use scanfill::Span;
use std::marker::Model;

// No two points of a step are further apart across, in sixteenths of a pixel.
const MOST_ACROSS: u64 = 33_554_432;

/// A round segment that is painted row by row by the chords of its width: a step of a line, most often a short one. Its
/// ends lie within 2^20 pixels of the picture's corner.
#[derive(Drop)]
pub struct RoundStep<'a> {
    chords: &'a Chords,
    from: Device,
    to: Device,
    limit: i128,
    plain: bool,
}

impl<'a> Model for RoundStep<'a> {
    ghost use Rattle.strokes.specs.Segment.{SegmentValue};
    ghost use Rattle.strokes.specs.Chord.{IsStep};

    ghost Value = { SegmentValue };

    ghost view = { λ s. record { edge = record { from = s.from; to = s.to }; width = s.chords.now } };

    ghost invariant = { λ s. IsStep (record { edge = record { from = s.from; to = s.to }; width = s.chords.now }) s.limit s.plain };
}

impl<'a> RoundStep<'a> {
    /// The step between two points.
    pub fn new(chords: &'a Chords, from: Device, to: Device) -> Self
        requires from { is_small_point from ≡ true }
        requires to { is_small_point to ≡ true }
        ensures { result ≡ record { edge = record { from = from; to = to }; width = chords.now } }
    {
        let half = square_of_half(chords.width());
        let length = apart(from, to);
        RoundStep {
            chords,
            from,
            to,
            limit: limit(half, length),
            plain: chords.is_plain(length),
        }
    }

    /// The rows of a picture of so many columns and rows outside of which it covers no pixel.
    pub fn rows(&self, width: u16, height: u16) -> Span
        ensures none { (i j : ℕ) → i < width → j < height → has_column result j ≡ false →
            covers_round self.now.width self.now.edge (pixel_centre (pos i) (pos j)) ≡ false }
        ensures within { result.to ≤ height }
    {
        let reach = self.chords.width();
        let rows = centres_about(self.from.y(), self.to.y(), reach, height);
        if rows.from >= rows.to {
            return rows;
        }
        let columns = centres_about(self.from.x(), self.to.x(), reach, width);
        if columns.from >= columns.to {
            return Span { from: 0, to: 0 };
        }
        rows
    }

    /// The columns of a row, of so many, that it covers.
    pub fn columns(&self, row: u16, end: u16) -> Span
        requires row { row < MAX_PICTURE_SIDE }
        requires end { end ≤ MAX_PICTURE_SIDE }
        ensures all { (i : ℕ) → i < end → has_column result i ≡ covers_round self.now.width self.now.edge (pixel_centre (pos i) (pos row)) }
        ensures order { result.from ≤ result.to }
        ensures within { result.to ≤ end }
    {
        let one = self.chords.columns(self.from, row, end);
        let other = self.chords.columns(self.to, row, end);
        let discs = joined(one, other);
        if discs.from < discs.to {
            if self.plain {
                return discs;
            }
            return self.widened(discs, row, end);
        }
        match self.some_beside(row, end) {
            Some(column) => self.widened(
                Span {
                    from: column,
                    to: column + 1,
                },
                row,
                end,
            ),
            None => Span { from: 0, to: 0 },
        }
    }

    // The columns of a row, and those before and behind that lie beside the step.
    fn widened(&self, span: Span, row: u16, end: u16) -> Span
        requires row { row < MAX_PICTURE_SIDE }
        requires some { span.from < span.to }
        requires within { span.to ≤ end }
        requires end { end ≤ MAX_PICTURE_SIDE }
        ensures before { result.from ≤ span.from }
        ensures behind { span.to ≤ result.to }
        ensures within { result.to ≤ end }
        ensures left { (i : ℕ) → result.from ≤ i → i < span.from → is_beside self.now.width self.now.edge row i ≡ true }
        ensures right { (i : ℕ) → span.to ≤ i → i < result.to → is_beside self.now.width self.now.edge row i ≡ true }
        ensures first { 0 < result.from → is_beside self.now.width self.now.edge row (result.from - 1) ≡ false }
        ensures last { result.to < end → is_beside self.now.width self.now.edge row result.to ≡ false }
    {
        Span {
            from: self.left_of(span.from, row),
            to: self.right_of(span.to, row, end),
        }
    }

    // The first of the columns before one that lie beside the step without a gap.
    fn left_of(&self, from: u16, row: u16) -> u16
        requires from { from ≤ MAX_PICTURE_SIDE }
        requires row { row < MAX_PICTURE_SIDE }
        ensures order { result ≤ from }
        ensures all { (i : ℕ) → result ≤ i → i < from → is_beside self.now.width self.now.edge row i ≡ true }
        ensures first { 0 < result → is_beside self.now.width self.now.edge row (result - 1) ≡ false }
    {
        let mut left = from;
        while left > 0 {
            if !self.is_beside(left - 1, row) {
                return left;
            }
            left -= 1;
        }
        left
    }

    // The column after the last of those from one on that do.
    fn right_of(&self, to: u16, row: u16, end: u16) -> u16
        requires to { to ≤ end }
        requires end { end ≤ MAX_PICTURE_SIDE }
        requires row { row < MAX_PICTURE_SIDE }
        ensures order { to ≤ result }
        ensures within { result ≤ end }
        ensures all { (i : ℕ) → to ≤ i → i < result → is_beside self.now.width self.now.edge row i ≡ true }
        ensures last { result < end → is_beside self.now.width self.now.edge row result ≡ false }
    {
        for column in to..end {
            if !self.is_beside(column, row) {
                return column;
            }
        }
        end
    }

    // A column of a row, of so many, that lies beside the step: that in which its line crosses the row, or else the first one.
    fn some_beside(&self, row: u16, end: u16) -> Option<u16>
        requires row { row < MAX_PICTURE_SIDE }
        requires end { end ≤ MAX_PICTURE_SIDE }
        ensures some { IfSome result (λ column. is_beside self.now.width self.now.edge row column ≡ true) }
        ensures within { IfSome result (λ column. column < end) }
        ensures none { result ≡ None → (i : ℕ) → i < end → is_beside self.now.width self.now.edge row i ≡ false }
    {
        let crossing = crossing(self.from, self.to, row);
        if crossing < end && self.is_beside(crossing, row) {
            return Some(crossing);
        }
        self.first_beside(row, end)
    }

    // The first column of a row, of so many, that lies beside the step.
    fn first_beside(&self, row: u16, end: u16) -> Option<u16>
        requires row { row < MAX_PICTURE_SIDE }
        ensures some { IfSome result (λ column. is_beside self.now.width self.now.edge row column ≡ true) }
        ensures within { IfSome result (λ column. column < end) }
        ensures none { result ≡ None → (i : ℕ) → i < end → is_beside self.now.width self.now.edge row i ≡ false }
    {
        let segment = RoundSegment::new(self.from, self.to, self.chords.width());
        let columns = segment.beside_columns(row, end);
        if columns.from < columns.to {
            Some(columns.from)
        } else {
            None
        }
    }

    // Whether the pixel of a column and a row lies beside the step.
    fn is_beside(&self, column: u16, row: u16) -> bool
        requires column { column < MAX_PICTURE_SIDE }
        requires row { row < MAX_PICTURE_SIDE }
        ensures { result ≡ is_beside self.now.width self.now.edge row column }
    {
        is_abreast(self.from, self.to, column, row)
            && is_square_at_most(centre_aside(self.from, self.to, column, row), self.limit)
    }
}

// Whether the centre of a pixel lies between the perpendiculars through the ends of a small edge.
fn is_abreast(from: Device, to: Device, column: u16, row: u16) -> bool
    requires small { IsSmallEdge (record { from = from; to = to }) }
    requires column { column < MAX_PICTURE_SIDE }
    requires row { row < MAX_PICTURE_SIDE }
    ensures { result ≡ is_abreast (record { from = from; to = to }) (pixel_centre (pos column) (pos row)) }
{
    let along = centre_along(from, to, column, row);
    0 < along && along < square_length(from, to)
}

// About the column in which a segment crosses a row, or any other one. It is a guess, of which nothing is proved: the
// caller tests it.
fn crossing(from: Device, to: Device, row: u16) -> u16
    requires small { IsSmallEdge (record { from = from; to = to }) }
    requires row { row < MAX_PICTURE_SIDE }
{
    let across = difference(to.x(), from.x());
    let down = difference(to.y(), from.y()).unsigned_abs();
    if down == 0 {
        return 0;
    }
    let below = difference(row_centre(row), from.y());
    let far = (product(below, across).unsigned_abs() / down).min(MOST_ACROSS) as i64;
    let x = if across < 0 {
        from.x() - far
    } else {
        from.x() + far
    };
    clamped(i128::from(x.div_euclid(16)), MAX_PICTURE_SIDE)
}

// Whether the square of a number is at most another one.
fn is_square_at_most(a: i64, most: i128) -> bool
    requires a { IsBelow (2 ^ 51) a }
    requires most { IsBelow (2 ^ 120) most }
    ensures { result ≡ int_le (square a) most }
{
    i128::from(a) * i128::from(a) <= most
}
