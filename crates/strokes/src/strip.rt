ghost use Rattle.std.specs.Prelude.{◌≡◌, ℕ, ◌<◌, ◌≤◌, ◌+◌, ◌*◌, ◌^◌, ◌&&◌, true, false, pos, neg_ℤ, ◌+ℤ◌, ◌-ℤ◌, ◌*ℤ◌, int_le, IfSome, None};
ghost use Rattle.geom.specs.Device.{DevicePoint, centre, pixel_centre};
ghost use Rattle.geom.specs.Range.{IsBelow};
ghost use Rattle.geom.specs.declared.side.TheConstants.{MAX_PICTURE_SIDE};
ghost use Rattle.mapdefs.specs.declared.limits.TheConstants.{MAX_FINE_WIDTH};
ghost use Rattle.scanfill.specs.Runs.{has_column};
ghost use Rattle.strokes.specs.Segment.{covers_by_rows, is_between, is_near, is_steep, turned_edge};
ghost use Rattle.strokes.specs.Strip.{IsStrip, is_small, is_small_point, reached};

use crate::segment::turned_edge;
use crate::steps::Steps;
use geom::{Device, Edge, row_centre};
use scanfill::Span;
use std::marker::Model;

/// A segment that goes down by as much as it goes across at least, to be walked row by row, in numbers of 64 bits. A
/// flat segment is walked column by column as the strip of the turned one.
#[derive(Clone, Copy)]
pub struct Strip {
    edge: Edge,
    width: u8,
}

impl Model for Strip {
    ghost use Rattle.strokes.specs.Segment.{SegmentValue};
    ghost use Rattle.strokes.specs.Strip.{IsStrip};

    ghost Value = { SegmentValue };

    ghost view = { λ s. record { edge = s.edge; width = s.width } };

    ghost invariant = { λ s. IsStrip (record { edge = s.edge; width = s.width }) };

    ghost inverse = { λ s. record { edge = s.edge; width = s.width } };
}

impl Strip {
    /// The strip of a steep segment along a small edge. The width is 1 to `MAX_FINE_WIDTH`.
    pub fn down(edge: Edge, width: u8) -> Self
        requires some { 1 ≤ width }
        requires most { width ≤ MAX_FINE_WIDTH }
        requires small { is_small edge ≡ true }
        requires steep { is_steep edge ≡ true }
        ensures { result ≡ record { edge = edge; width = width } }
    {
        Strip { edge, width }
    }

    /// The strip of any other segment, turned. `None` is one of no length, which covers nothing.
    pub fn across(edge: Edge, width: u8) -> Option<Self>
        requires some { 1 ≤ width }
        requires most { width ≤ MAX_FINE_WIDTH }
        requires small { is_small edge ≡ true }
        requires flat { is_steep edge ≡ false }
        ensures some { IfSome result (λ strip. strip ≡ record { edge = turned_edge edge; width = width }) }
        ensures none { result ≡ None → (p : DevicePoint) → covers_by_rows width (turned_edge edge) p ≡ false }
    {
        let edge = turned_edge(edge);
        if edge.rise() == 0 {
            return None;
        }
        Some(Strip { edge, width })
    }

    /// The rows, of so many, whose centres lie between its ends.
    pub fn rows(self, end: u16) -> Span
        requires { end ≤ MAX_PICTURE_SIDE }
        ensures all { (j : ℕ) → j < end → has_column result j ≡ is_between self.edge (centre (pos j)) }
        ensures within { result.to ≤ end }
    {
        let from = (self.edge.low_end().y() + 7).div_euclid(16);
        let last = (self.edge.high_end().y() - 8).div_euclid(16);
        Span::clipped(from, last + 1, end)
    }

    /// The walk that begins in a row.
    pub fn walk(self, row: u16) -> RowWalk
        requires { row < MAX_PICTURE_SIDE }
        ensures { result ≡ record { edge = self.edge; width = self.width; row = row } }
    {
        let edge = self.edge;
        RowWalk {
            edge,
            width: self.width,
            row,
            steps: Steps::new(
                reached(edge, self.width, row),
                sixteen_times(edge.run()),
                sixteen_times(edge.rise()),
            ),
        }
    }
}

/// A walk down a strip, row by row. It divides once, where it begins.
#[derive(Drop)]
pub struct RowWalk {
    edge: Edge,
    width: u8,
    row: u16,
    steps: Steps,
}

impl Model for RowWalk {
    ghost use Rattle.strokes.specs.Strip.{IsRowWalk, RowWalkValue};

    ghost Value = { RowWalkValue };

    ghost view = { λ w. record { edge = w.edge; width = w.width; row = w.row } };

    ghost invariant = { λ w. IsRowWalk w.edge w.width w.row w.steps };
}

impl RowWalk {
    /// The columns of its row, of so many, whose centres lie near enough to the segment's line.
    pub fn columns(&self, end: u16) -> Span
        ensures all { (i : ℕ) → i < end → has_column result i ≡ is_near self.now.width self.now.edge (pixel_centre (pos i) (pos self.now.row)) }
        ensures order { result.from ≤ result.to }
        ensures within { result.to ≤ end }
    {
        columns_after(self.steps.quotient(), self.width, end)
    }

    /// Goes on to the next row.
    pub fn next(&mut self)
        requires { self.old.row < MAX_PICTURE_SIDE }
        ensures { self.new ≡ record self.old { row = self.old.row + 1 } }
    {
        self.steps.next();
        self.row += 1;
    }
}

// The columns, of so many, after another one: as many as the width. That one may lie off the picture.
fn columns_after(column: i64, width: u8, end: u16) -> Span
    requires column { IsBelow (2 ^ 53) column }
    ensures all { (i : ℕ) → i < end → has_column result i ≡ (int_le (column +ℤ pos 1) (pos i) && int_le (pos i) (column +ℤ pos width)) }
    ensures order { result.from ≤ result.to }
    ensures within { result.to ≤ end }
{
    let last = column + i64::from(width);
    Span::clipped(column + 1, last + 1, end)
}

/// Whether both ends of an edge lie within 2^20 pixels of the picture's corner, so that 64 bits suffice.
pub fn is_small(edge: Edge) -> bool
    ensures { result ≡ is_small edge }
{
    is_small_point(edge.low_end()) && is_small_point(edge.high_end())
}

/// The same of a point.
pub fn is_small_point(point: Device) -> bool
    ensures { result ≡ is_small_point point }
{
    point.x().unsigned_abs() < 16_777_216 && point.y().unsigned_abs() < 16_777_216
}

// The number that gives, divided by 16 times the rise and rounded down, the column before the first near one of a row.
fn reached(edge: Edge, width: u8, row: u16) -> i64
    requires strip { IsStrip (record { edge = edge; width = width }) }
    requires row { row < MAX_PICTURE_SIDE }
    ensures value { result ≡ reached width edge row }
    ensures range { IsBelow (2 ^ 53) result }
{
    let low = edge.low_end();
    less_all(
        product(half(width), edge.rise()),
        product(apart(8, low.x()), edge.rise()),
        product(apart(row_centre(row), low.y()), edge.run()),
    )
}

// Half a width, in sixteenths of a pixel.
fn half(width: u8) -> i64
    requires { width ≤ MAX_FINE_WIDTH }
    ensures value { result ≡ pos (8 * width) }
    ensures range { IsBelow (2 ^ 25) result }
{
    8 * i64::from(width)
}

/// The difference of two small numbers.
pub fn apart(a: i64, b: i64) -> i64
    requires a { IsBelow (2 ^ 24) a }
    requires b { IsBelow (2 ^ 24) b }
    ensures value { result ≡ a -ℤ b }
    ensures range { IsBelow (2 ^ 25) result }
{
    a - b
}

/// The product of two such differences.
pub fn product(a: i64, b: i64) -> i64
    requires a { IsBelow (2 ^ 25) a }
    requires b { IsBelow (2 ^ 25) b }
    ensures value { result ≡ a *ℤ b }
    ensures range { IsBelow (2 ^ 50) result }
{
    a * b
}

// The opposite of a product, less the difference of two others.
fn less_all(a: i64, b: i64, c: i64) -> i64
    requires a { IsBelow (2 ^ 50) a }
    requires b { IsBelow (2 ^ 50) b }
    requires c { IsBelow (2 ^ 50) c }
    ensures value { result ≡ neg_ℤ a -ℤ (b -ℤ c) }
    ensures range { IsBelow (2 ^ 53) result }
{
    -a - (b - c)
}

// Sixteen times a difference.
fn sixteen_times(a: i64) -> i64
    requires { IsBelow (2 ^ 25) a }
    ensures value { result ≡ pos 16 *ℤ a }
    ensures range { IsBelow (2 ^ 30) result }
{
    16 * a
}
