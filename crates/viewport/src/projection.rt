ghost use Rattle.std.specs.Prelude.{◌≡◌, ◌<◌, ◌≤◌, ◌+◌, ◌*◌, ◌^◌, IsTrue};
ghost use Rattle.geom.specs.Device.{pixel_of};
ghost use Rattle.geom.specs.Range.{IsBelow};
ghost use Rattle.geom.specs.World.{IsCoordinate, IsExtent};

use crate::axis::Axis;
use crate::heights::Heights;
use crate::view::{View, below, difference, span};
use geom::{
    COORDINATE_LIMIT, Coordinate, Device, Factor, GREATEST_COORDINATE, LEAST_COORDINATE, Micro,
    PictureSide, Pixel, World, WorldBox,
};
use std::marker::Model;

/// A view that is prepared for many places: it has divided for each of its two axes, and divides no more.
#[derive(Drop)]
pub struct Projection {
    view: View,
    across: Axis,
    down: Axis,
}

impl Model for Projection {
    ghost use Rattle.viewport.specs.Projection.{IsProjection};
    ghost use Rattle.viewport.specs.View.{ViewValue};

    ghost Value = { ViewValue };

    ghost view = { λ p. p.view };

    ghost invariant = { λ p. IsProjection p.view p.across p.down };
}

impl Projection {
    ghost use Rattle.viewport.specs.View.{IsView, across_of, device_point, down_of, window};
    ghost use Rattle.viewport.specs.declared.view.TheConstants.{MAX_MARGIN};

    /// The projection of a view. The call divides for the two axes, so callers make it once for a picture.
    pub fn new(view: View) -> Self
        ensures { result ≡ view }
    {
        let area = view.area();
        Projection {
            view,
            across: Axis::new(
                16 * u64::from(view.columns()),
                span(area.minx(), area.maxx()),
                16 * u64::from(view.left()),
            ),
            down: Axis::new(
                16 * u64::from(view.rows()),
                span(area.miny(), area.maxy()),
                16 * u64::from(view.top()),
            ),
        }
    }

    /// The view.
    pub fn view(&self) -> View
        ensures { result ≡ self.now }
    {
        self.view
    }

    /// Whether it is the projection of a view.
    pub fn shows(&self, view: View) -> bool
        ensures { IsTrue result → view ≡ self.now }
    {
        self.view.is_same(view)
    }

    /// The part of the world that the view shows.
    pub fn area(&self) -> WorldBox
        ensures value { result ≡ self.now.area }
        ensures limits { IsExtent result }
    {
        self.view.area()
    }

    /// How many columns of pixels the whole picture has.
    pub fn columns(&self) -> u16
        ensures value { result ≡ self.now.columns }
        ensures limits { IsView self.now }
    {
        self.view.columns()
    }

    /// How many rows of pixels the whole picture has.
    pub fn rows(&self) -> u16
        ensures value { result ≡ self.now.rows }
        ensures limits { IsView self.now }
    {
        self.view.rows()
    }

    /// How many pixels of the picture a map's pixel is, in both directions.
    pub fn factor(&self) -> Factor
        ensures { result ≡ self.now.factor }
    {
        self.view.factor()
    }

    /// How many columns of pixels the canvas has.
    pub fn width(&self) -> PictureSide
        ensures { result ≡ self.now.width }
    {
        self.view.width()
    }

    /// How many rows of pixels the canvas has.
    pub fn height(&self) -> PictureSide
        ensures { result ≡ self.now.height }
    {
        self.view.height()
    }

    /// The part of the world that the canvas shows, and `margin` pixels on each side of it: what `View::window` gives.
    pub fn window(&self, margin: u16) -> WorldBox
        requires { margin ≤ MAX_MARGIN }
        ensures value { result ≡ window self.now margin }
        ensures limits { IsView self.now }
    {
        let _columns = self.view.columns();
        self.view.window(margin)
    }

    /// The part of the world that a canvas of so many columns and rows shows which begins with the same pixel.
    pub fn window_of(&self, columns: u16, rows: u16) -> WorldBox
        requires across { self.now.left + columns ≤ self.now.columns }
        requires down { self.now.top + rows ≤ self.now.rows }
        ensures { result ≡ window (record self.now { width = columns; height = rows }) 0 }
    {
        self.view.window_of(columns, rows, 0)
    }

    /// Where a place lies on the picture, or off it.
    pub fn device(&self, place: World) -> Device
        ensures { result ≡ device_point self.now place }
    {
        Device::new(self.across(place.x()), self.down(place.y()))
    }

    /// The pixel that a place lies in: what `View::pixel` gives.
    pub fn pixel(&self, place: World) -> Pixel
        ensures { result ≡ pixel_of (device_point self.now place) }
    {
        self.device(place).pixel()
    }

    /// How far a longitude is from the left of the canvas, in sixteenths of a pixel.
    pub fn across(&self, longitude: Coordinate) -> i64
        ensures value { result ≡ across_of self.now longitude }
        ensures range { IsBelow (2 ^ 47) result }
    {
        let area = self.view.area();
        self.across
            .sixteenths(difference(longitude.get(), area.minx()))
    }

    /// How far a latitude is from the top of the canvas, in sixteenths of a pixel.
    pub fn down(&self, latitude: Coordinate) -> i64
        ensures value { result ≡ down_of self.now latitude }
        ensures range { IsBelow (2 ^ 47) result }
    {
        let area = self.view.area();
        self.down
            .sixteenths(below(area.maxy(), self.view.heights().of(latitude)))
    }

    /// About the southernmost latitude that still lies at the pixel centres of a row of the canvas, counted from its top,
    /// or above them. It is a guess, of which nothing is proved: the caller tests it.
    pub fn about_south(&self, row: u16) -> Coordinate {
        let area = self.view.area();
        let whole = span(area.miny(), area.maxy());
        let sixteenths = 16 * (u64::from(self.view.top()) + u64::from(row)) + 9;
        let below = (sixteenths * whole - 1) / (16 * u64::from(self.view.rows()));
        southward(self.view.heights(), area.maxy(), below)
    }

    /// What the view measures from south to north.
    pub fn heights(&self) -> Heights
        ensures { result ≡ self.now.heights }
    {
        self.view.heights()
    }
}

// About the latitude so many millionths of a degree below a height, or the southernmost one.
fn southward(heights: Heights, top: Micro, below: u64) -> Coordinate
    requires { IsCoordinate top }
{
    if below < 2 * COORDINATE_LIMIT {
        let number = guess(heights, top.millionths() - below as i64);
        Coordinate::new(Micro::new(number.clamp(LEAST_COORDINATE, GREATEST_COORDINATE)))
    } else {
        Coordinate::new(Micro::new(LEAST_COORDINATE))
    }
}

// About the southernmost latitude that lies so far north.
fn guess(heights: Heights, height: i64) -> i64
    requires { IsBelow (2 ^ 46) height }
    ensures { IsBelow (2 ^ 48) result }
{
    match heights {
        Heights::Latitudes => height,
        Heights::Mercator => mercator::about_latitude(height),
    }
}
