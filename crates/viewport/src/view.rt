ghost use Rattle.std.specs.Prelude.{◌≡◌, ◌≤◌, ◌<◌, ◌+◌, ◌^◌, pos, ◌+ℤ◌, ◌-ℤ◌, unsigned_abs, IsTrue};
ghost use Rattle.geom.specs.Device.{pixel_of};
ghost use Rattle.geom.specs.Range.{IsBelow, IsWithin};
ghost use Rattle.geom.specs.World.{IsCoordinate, IsExtent};
ghost use Rattle.viewport.specs.View.{IsFine, IsOnSide, IsView, block_of, fine_view, plain_view, shown_before, shown_by};
ghost use Rattle.viewport.specs.declared.view.TheConstants.{MAX_MARGIN};

use crate::fine::Stretch;
use crate::heights::Heights;
use crate::projection::Projection;
use geom::{Device, Factor, Micro, PictureSide, Pixel, World, WorldBox};
use std::marker::Model;

/// The most pixels that a window has on each side of the picture.
pub const MAX_MARGIN: u16 = 4_096;

/// A view: the part of the world that is shown, the sides of the whole picture that shows it, and the block of that
/// picture which is its canvas. The area is an extent of the world.
#[derive(Clone, Copy)]
pub struct View {
    heights: Heights,
    area: WorldBox,
    columns: u16,
    rows: u16,
    left: u16,
    top: u16,
    width: PictureSide,
    height: PictureSide,
    factor: Factor,
}

impl Model for View {
    ghost use Rattle.viewport.specs.View.{IsView, ViewValue};

    ghost Value = { ViewValue };

    ghost view = { λ v. record {
      heights = v.heights;
      area = v.area;
      columns = v.columns;
      rows = v.rows;
      left = v.left;
      top = v.top;
      width = v.width;
      height = v.height;
      factor = v.factor;
    } };

    ghost invariant = { λ v. IsView (record {
      heights = v.heights;
      area = v.area;
      columns = v.columns;
      rows = v.rows;
      left = v.left;
      top = v.top;
      width = v.width;
      height = v.height;
      factor = v.factor;
    }) };

    ghost inverse = { λ v. record {
      heights = v.heights;
      area = v.area;
      columns = v.columns;
      rows = v.rows;
      left = v.left;
      top = v.top;
      width = v.width;
      height = v.height;
      factor = v.factor;
    } };
}

impl View {
    ghost use Rattle.viewport.specs.View.{device_point, window};

    /// The view of an area, an extent of the world, by a picture of that many columns and rows, all of which is the
    /// canvas. A pixel is one of the map's.
    pub fn new(heights: Heights, area: WorldBox, width: PictureSide, height: PictureSide) -> Self
        requires { IsExtent area }
        ensures { result ≡ plain_view heights area width height }
    {
        View {
            heights,
            area,
            columns: width.pixels(),
            rows: height.pixels(),
            left: 0,
            top: 0,
            width,
            height,
            factor: Factor::of(1),
        }
    }

    // The view by a block of the picture that is so many times as fine.
    pub(crate) fn fine_block(self, factor: Factor, across: Stretch, down: Stretch) -> Self
        requires fine { IsFine self factor }
        requires across { IsOnSide (fine_view self factor).columns across.first across.count }
        requires down { IsOnSide (fine_view self factor).rows down.first down.count }
        ensures { result ≡ block_of (fine_view self factor) across down }
    {
        let times = factor.times();
        View {
            columns: u16::from(times) * self.columns,
            rows: u16::from(times) * self.rows,
            left: across.first,
            top: down.first,
            width: across.count,
            height: down.count,
            factor,
            ..self
        }
    }

    // Whether it shows the same part of the world by the same block of the same picture.
    pub(crate) fn is_same(self, other: View) -> bool
        ensures { IsTrue result → other ≡ self }
    {
        self.heights == other.heights
            && are_same(self.area, other.area)
            && (self.columns, self.rows) == (other.columns, other.rows)
            && self.factor.times() == other.factor.times()
            && (self.left, self.top) == (other.left, other.top)
            && self.width.pixels() == other.width.pixels()
            && self.height.pixels() == other.height.pixels()
    }

    // What it measures from south to north.
    pub(crate) fn heights(self) -> Heights
        ensures { result ≡ self.heights }
    {
        self.heights
    }

    // The part of the world that it shows.
    pub(crate) fn area(self) -> WorldBox
        ensures value { result ≡ self.area }
        ensures limits { IsExtent result }
    {
        self.area
    }

    /// How many columns of pixels the whole picture has.
    pub fn columns(self) -> u16
        ensures value { result ≡ self.columns }
        ensures limits { IsView self }
    {
        self.columns
    }

    /// How many rows of pixels the whole picture has.
    pub fn rows(self) -> u16
        ensures value { result ≡ self.rows }
        ensures limits { IsView self }
    {
        self.rows
    }

    /// Which column of the whole picture is the first of the canvas.
    pub fn left(self) -> u16
        ensures value { result ≡ self.left }
        ensures limits { IsView self }
    {
        self.left
    }

    /// Which row of the whole picture is the first of the canvas.
    pub fn top(self) -> u16
        ensures value { result ≡ self.top }
        ensures limits { IsView self }
    {
        self.top
    }

    /// How many columns of pixels the canvas has.
    pub fn width(self) -> PictureSide
        ensures { result ≡ self.width }
    {
        self.width
    }

    /// How many rows of pixels the canvas has.
    pub fn height(self) -> PictureSide
        ensures { result ≡ self.height }
    {
        self.height
    }

    /// How many pixels of the picture a map's pixel is, in both directions.
    pub fn factor(self) -> Factor
        ensures { result ≡ self.factor }
    {
        self.factor
    }

    /// Where a place lies on the picture, or off it. It makes a projection for this one place.
    pub fn device(self, place: World) -> Device
        ensures { result ≡ device_point self place }
    {
        Projection::new(self).device(place)
    }

    /// The pixel that a place lies in.
    pub fn pixel(self, place: World) -> Pixel
        ensures { result ≡ pixel_of (device_point self place) }
    {
        self.device(place).pixel()
    }

    /// The part of the world that the canvas shows, and `margin` pixels on each side of it, rounded outwards to a
    /// millionth of a degree. It may reach beyond 1,000 degrees. By `laws::window` it has each place whose pixel is at
    /// most so many columns and rows off the canvas.
    pub fn window(self, margin: u16) -> WorldBox
        requires { margin ≤ MAX_MARGIN }
        ensures { result ≡ window self margin }
    {
        self.window_of(self.width.pixels(), self.height.pixels(), margin)
    }

    // The same of a canvas of so many columns and rows that begins with the same pixel.
    pub(crate) fn window_of(self, columns: u16, rows: u16, margin: u16) -> WorldBox
        requires across { self.left + columns ≤ self.columns }
        requires down { self.top + rows ≤ self.rows }
        requires margin { margin ≤ MAX_MARGIN }
        ensures { result ≡ window (record self { width = columns; height = rows }) margin }
    {
        WorldBox::new(
            self.west(margin),
            self.south(rows, margin),
            self.east(columns, margin),
            self.north(margin),
        )
    }

    // The four sides of the window.
    fn west(self, margin: u16) -> Micro
        requires { margin ≤ MAX_MARGIN }
        ensures { result ≡ (window self margin).minx }
    {
        let (low, high) = (self.area.minx(), self.area.maxx());
        let column = before(self.left, margin);
        more(low, shown_before(column, self.columns, span(low, high)))
    }

    fn east(self, columns: u16, margin: u16) -> Micro
        requires across { self.left + columns ≤ self.columns }
        requires margin { margin ≤ MAX_MARGIN }
        ensures { result ≡ (window (record self { width = columns }) margin).maxx }
    {
        let (low, high) = (self.area.minx(), self.area.maxx());
        let column = self.left + columns + margin;
        more(low, shown_by(column, self.columns, span(low, high)))
    }

    fn south(self, rows: u16, margin: u16) -> Micro
        requires down { self.top + rows ≤ self.rows }
        requires margin { margin ≤ MAX_MARGIN }
        ensures { result ≡ (window (record self { height = rows }) margin).miny }
    {
        let (low, high) = (self.area.miny(), self.area.maxy());
        let row = self.top + rows + margin;
        let by = shown_by(row, self.rows, span(low, high));
        Micro::new(self.heights.south(less(high, by).millionths()))
    }

    fn north(self, margin: u16) -> Micro
        requires { margin ≤ MAX_MARGIN }
        ensures { result ≡ (window self margin).maxy }
    {
        let (low, high) = (self.area.miny(), self.area.maxy());
        let row = before(self.top, margin);
        let by = shown_before(row, self.rows, span(low, high));
        Micro::new(self.heights.north(less(high, by).millionths()))
    }
}

// Whether two parts of the world have the same sides.
fn are_same(a: WorldBox, b: WorldBox) -> bool
    ensures { IsTrue result → b ≡ a }
{
    a.minx().millionths() == b.minx().millionths()
        && a.miny().millionths() == b.miny().millionths()
        && a.maxx().millionths() == b.maxx().millionths()
        && a.maxy().millionths() == b.maxy().millionths()
}

// The difference of two coordinates, in millionths of a degree.
pub(crate) fn difference(a: Micro, b: Micro) -> i64
    requires a { IsCoordinate a }
    requires b { IsCoordinate b }
    ensures value { result ≡ a -ℤ b }
    ensures range { IsBelow (2 ^ 31) result }
{
    a.millionths() - b.millionths()
}

// How far a height is below the top, in millionths of a degree.
pub(crate) fn below(top: Micro, height: i64) -> i64
    requires top { IsCoordinate top }
    requires height { IsWithin 1100000000 height }
    ensures value { result ≡ top -ℤ height }
    ensures range { IsBelow (2 ^ 31) result }
{
    top.millionths() - height
}

// How far two coordinates are apart, in millionths of a degree.
pub(crate) fn span(low: Micro, high: Micro) -> u64
    requires low { IsCoordinate low }
    requires high { IsCoordinate high }
    ensures value { result ≡ unsigned_abs (high -ℤ low) }
    ensures range { result < 2 ^ 31 }
{
    difference(high, low).unsigned_abs()
}

// The column or row that is a margin before one.
fn before(first: u16, margin: u16) -> i64
    requires first { first ≤ 2 ^ 13 }
    requires margin { margin ≤ MAX_MARGIN }
    ensures value { result ≡ pos first -ℤ pos margin }
    ensures range { IsBelow (2 ^ 14) result }
{
    i64::from(first) - i64::from(margin)
}

// How many millionths of a degree so many pixels show, of a side that shows a span, rounded up.
#[tactic(auto, unfolding(crate::specs::View::shown_by))]
fn shown_by(count: u16, side: u16, span: u64) -> i64
    requires count { count < 2 ^ 14 }
    requires side { 1 ≤ side }
    requires span { span < 2 ^ 31 }
    ensures value { result ≡ pos (shown_by count side span) }
    ensures range { IsBelow (2 ^ 45) result }
{
    (u64::from(count) * span).div_ceil(u64::from(side)) as i64
}

// How many millionths of a degree lie before a column, of a side that shows a span, rounded down.
#[tactic(auto, unfolding(crate::specs::View::shown_before))]
fn shown_before(column: i64, side: u16, span: u64) -> i64
    requires column { IsBelow (2 ^ 14) column }
    requires side { 1 ≤ side }
    requires span { span < 2 ^ 31 }
    ensures value { result ≡ shown_before column side span }
    ensures range { IsBelow (2 ^ 45) result }
{
    (column * span as i64).div_euclid(i64::from(side))
}

// A coordinate plus a number of millionths.
fn more(a: Micro, by: i64) -> Micro
    requires a { IsCoordinate a }
    requires by { IsBelow (2 ^ 45) by }
    ensures value { result ≡ a +ℤ by }
    ensures range { IsBelow (2 ^ 46) result }
{
    Micro::new(a.millionths() + by)
}

// A coordinate less a number of millionths.
fn less(a: Micro, by: i64) -> Micro
    requires a { IsCoordinate a }
    requires by { IsBelow (2 ^ 45) by }
    ensures value { result ≡ a -ℤ by }
    ensures range { IsBelow (2 ^ 46) result }
{
    Micro::new(a.millionths() - by)
}
