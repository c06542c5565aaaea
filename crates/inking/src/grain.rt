ghost use Rattle.std.specs.Prelude.{◌≡◌, ◌≤◌, ◌<◌, ◌-◌, ◌*◌, ◌^◌, true, IsTrue, pos, ◌+ℤ◌, ◌-ℤ◌, ◌*ℤ◌, ◌≤ℤ◌, ◌<ℤ◌};
ghost use Rattle.std.specs.Int.{int_div_euclid};
ghost use Rattle.geom.specs.Device.{pixel_of};
ghost use Rattle.geom.specs.Range.{IsBelow};
ghost use Rattle.geom.specs.World.{IsCoordinate};
ghost use Rattle.viewport.specs.View.{device_point, steepest};
ghost use Rattle.inking.specs.Grain.{AreOfPixel, AreOfRow, IsGrain, row_at};
ghost use Rattle.inking.specs.Stroked.{has_place};

use geom::{Coordinate, Device, GREATEST_COORDINATE, LEAST_COORDINATE, Micro, World, WorldBox};
use std::marker::Model;
use viewport::{Heights, Projection};

// The square of half a turn, in hundredths of a degree.
const HALF_TURN_SQUARED: u64 = 18_000 * 18_000;

/// A projection, and its grain: how many whole millionths a sixteenth of a pixel shows, of longitude across, and of height
/// down.
#[derive(Drop)]
pub struct Grain<'a> {
    projection: &'a Projection,
    across: i64,
    down: i64,
}

impl<'a> Model for Grain<'a> {
    ghost use Rattle.viewport.specs.View.{ViewValue};
    ghost use Rattle.inking.specs.Grain.{AreGrains};

    ghost Value = { ViewValue };

    ghost view = { λ g. g.projection.now };

    ghost invariant = { λ g. AreGrains g.projection.now g.across g.down };
}

impl<'a> Grain<'a> {
    /// The grain of a projection. It divides for both axes.
    pub fn new(projection: &'a Projection) -> Self
        ensures { result ≡ projection.now }
    {
        let area = projection.area();
        Grain {
            projection,
            across: grain_of(projection.columns(), span(area.minx(), area.maxx())),
            down: grain_of(projection.rows(), span(area.miny(), area.maxy())),
        }
    }

    /// The projection.
    pub fn projection(&self) -> &Projection
        ensures { result.now ≡ self.now }
    {
        self.projection
    }

    /// A box round a place, which lies at that point of the picture. All places of the box lie in the same pixel.
    pub fn around(&self, place: World, at: Device) -> WorldBox
        requires { at ≡ device_point self.now place }
        ensures has { has_place result place ≡ true }
        ensures pixel { AreOfPixel self.now result (pixel_of at) }
    {
        let (x, y) = (place.x().get().millionths(), place.y().get().millionths());
        let (left, top) = (into_pixel(at.x()), into_pixel(at.y()));
        let down = self.grain_at(place, at, top);
        box_of(
            less(x, left, self.across),
            less(y, 15 - top, down),
            more(x, 15 - left, self.across),
            more(y, top, down),
        )
    }

    // How many whole millionths of latitude a sixteenth of a pixel shows round a place, so many sixteenths below the top of
    // its pixel.
    fn grain_at(&self, place: World, at: Device, top: u8) -> i64
        requires at { at ≡ device_point self.now place }
        requires top { at.y ≡ int_div_euclid at.y (pos 16) *ℤ pos 16 +ℤ pos top }
        requires few { top ≤ 15 }
        ensures least { pos 0 ≤ℤ result }
        ensures most { IsBelow (2 ^ 31) result }
        ensures row { AreOfRow self.now (place.y -ℤ pos (15 - top) *ℤ result) (place.y +ℤ pos top *ℤ result) (pixel_of at).j }
    {
        match self.projection.heights() {
            Heights::Latitudes => self.down,
            Heights::Mercator => self.guessed_grain(place, at, top),
        }
    }

    // The same in web mercator: a guess that is tested, or what a sixteenth shows where heights rise the most.
    fn guessed_grain(&self, place: World, at: Device, top: u8) -> i64
        requires at { at ≡ device_point self.now place }
        requires top { at.y ≡ int_div_euclid at.y (pos 16) *ℤ pos 16 +ℤ pos top }
        requires few { top ≤ 15 }
        ensures least { pos 0 ≤ℤ result }
        ensures most { IsBelow (2 ^ 31) result }
        ensures row { AreOfRow self.now (place.y -ℤ pos (15 - top) *ℤ result) (place.y +ℤ pos top *ℤ result) (pixel_of at).j }
    {
        let latitude = place.y().get().millionths();
        let guess = about_grain(self.down, latitude);
        let (south, north) = (less(latitude, 15 - top, guess), more(latitude, top, guess));
        if self.is_of_row(south, at) && self.is_of_row(north, at) {
            return guess;
        }
        flattened(self.down, self.projection.heights())
    }

    // Whether a latitude lies in the row of pixels of a point.
    fn is_of_row(&self, latitude: i64, at: Device) -> bool
        ensures { IsTrue result → row_at self.now latitude ≡ (pixel_of at).j }
    {
        if latitude < LEAST_COORDINATE || latitude > GREATEST_COORDINATE {
            return false;
        }
        let latitude = Coordinate::new(Micro::new(latitude));
        self.projection.down(latitude).div_euclid(16) == at.pixel().j()
    }
}

// How far two coordinates are apart.
fn span(low: Micro, high: Micro) -> i64
    requires low { IsCoordinate low }
    requires high { IsCoordinate high }
    ensures value { result ≡ high -ℤ low }
    ensures range { IsBelow (2 ^ 31) result }
{
    high.millionths() - low.millionths()
}

// The whole millionths that a sixteenth of a pixel shows, where a side of so many pixels shows so many.
fn grain_of(pixels: u16, whole: i64) -> i64
    requires pixels { 1 ≤ pixels }
    requires some { pos 0 <ℤ whole }
    requires most { IsBelow (2 ^ 31) whole }
    ensures { IsGrain pixels whole result }
{
    whole.div_euclid(16 * i64::from(pixels))
}

// The latitudes of a grain of heights, where heights rise the most.
fn flattened(grain: i64, heights: Heights) -> i64
    requires least { pos 0 ≤ℤ grain }
    requires most { IsBelow (2 ^ 31) grain }
    ensures fits { (pos (steepest heights) *ℤ result) ≤ℤ grain }
    ensures least { pos 0 ≤ℤ result }
    ensures most { IsBelow (2 ^ 31) result }
{
    match heights {
        Heights::Latitudes => grain,
        Heights::Mercator => grain / 12,
    }
}

// About the latitudes of a grain of heights in web mercator: less by the cosine of the latitude, for which Bhaskara's
// fraction stands, and by a sixteenth, since the cosine changes within a pixel. It is a guess, which the caller tests.
fn about_grain(grain: i64, latitude: i64) -> i64
    requires least { pos 0 ≤ℤ grain }
    requires most { IsBelow (2 ^ 31) grain }
    requires latitude { IsCoordinate latitude }
    ensures least { pos 0 ≤ℤ result }
    ensures most { IsBelow (2 ^ 31) result }
{
    let hundredths = latitude.unsigned_abs() / 10_000;
    let square = hundredths * hundredths;
    let part = HALF_TURN_SQUARED.saturating_sub(4 * square);
    let guess = grain as u64 * part / (HALF_TURN_SQUARED + square);
    (guess - guess / 16).min(grain as u64) as i64
}

// How many sixteenths of a pixel a number lies past the pixel's side.
fn into_pixel(number: i64) -> u8
    requires { IsBelow (2 ^ 47) number }
    ensures value { number ≡ int_div_euclid number (pos 16) *ℤ pos 16 +ℤ pos result }
    ensures most { result ≤ 15 }
{
    (number - 16 * number.div_euclid(16)) as u8
}

// A coordinate less so many grains, and a coordinate plus so many.
fn less(number: i64, count: u8, grain: i64) -> i64
    requires number { IsBelow (2 ^ 31) number }
    requires grain { IsBelow (2 ^ 31) grain }
    ensures value { result ≡ number -ℤ pos count *ℤ grain }
    ensures range { IsBelow (2 ^ 40) result }
{
    number - i64::from(count) * grain
}

fn more(number: i64, count: u8, grain: i64) -> i64
    requires number { IsBelow (2 ^ 31) number }
    requires grain { IsBelow (2 ^ 31) grain }
    ensures value { result ≡ number +ℤ pos count *ℤ grain }
    ensures range { IsBelow (2 ^ 40) result }
{
    number + i64::from(count) * grain
}

/// The box of four numbers of millionths.
pub fn box_of(minx: i64, miny: i64, maxx: i64, maxy: i64) -> WorldBox
    ensures { result ≡ record { minx = minx; miny = miny; maxx = maxx; maxy = maxy } }
{
    WorldBox::new(
        Micro::new(minx),
        Micro::new(miny),
        Micro::new(maxx),
        Micro::new(maxy),
    )
}
