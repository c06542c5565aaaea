ghost use Rattle.std.specs.Prelude.{◌≡◌, ◌<◌, ◌^◌, pos, ◌+ℤ◌, ◌-ℤ◌};
ghost use Rattle.geom.specs.Device.{pixel_centre};
ghost use Rattle.geom.specs.Range.{IsBelow};
ghost use Rattle.geom.specs.declared.side.TheConstants.{MAX_PICTURE_SIDE};
ghost use Rattle.strokes.specs.Chord.{IsSmallEdge};
ghost use Rattle.strokes.specs.Round.{along, apart, aside};

use crate::strip::{apart as difference, product};
use geom::{Device, row_centre};

/// The square of the length of a small edge, in 64 bits.
pub fn square_length(from: Device, to: Device) -> i64
    requires { IsSmallEdge (record { from = from; to = to }) }
    ensures value { result ≡ apart from to }
    ensures range { IsBelow (2 ^ 51) result }
{
    let across = difference(to.x(), from.x());
    let down = difference(to.y(), from.y());
    sum(product(across, across), product(down, down))
}

/// How far along a small edge the centre of a pixel lies, times the edge's length.
pub fn centre_along(from: Device, to: Device, column: u16, row: u16) -> i64
    requires small { IsSmallEdge (record { from = from; to = to }) }
    requires column { column < MAX_PICTURE_SIDE }
    requires row { row < MAX_PICTURE_SIDE }
    ensures value { result ≡ along (record { from = from; to = to }) (pixel_centre (pos column) (pos row)) }
    ensures range { IsBelow (2 ^ 51) result }
{
    let right = difference(row_centre(column), from.x());
    let below = difference(row_centre(row), from.y());
    let across = difference(to.x(), from.x());
    let down = difference(to.y(), from.y());
    sum(product(right, across), product(below, down))
}

/// How far aside of its line it lies, times the edge's length.
pub fn centre_aside(from: Device, to: Device, column: u16, row: u16) -> i64
    requires small { IsSmallEdge (record { from = from; to = to }) }
    requires column { column < MAX_PICTURE_SIDE }
    requires row { row < MAX_PICTURE_SIDE }
    ensures value { result ≡ aside (record { from = from; to = to }) (pixel_centre (pos column) (pos row)) }
    ensures range { IsBelow (2 ^ 51) result }
{
    let right = difference(row_centre(column), from.x());
    let below = difference(row_centre(row), from.y());
    let across = difference(to.x(), from.x());
    let down = difference(to.y(), from.y());
    minus(product(below, across), product(right, down))
}

// The sum of two products.
fn sum(a: i64, b: i64) -> i64
    requires a { IsBelow (2 ^ 50) a }
    requires b { IsBelow (2 ^ 50) b }
    ensures value { result ≡ a +ℤ b }
    ensures range { IsBelow (2 ^ 51) result }
{
    a + b
}

// The difference of two products.
fn minus(a: i64, b: i64) -> i64
    requires a { IsBelow (2 ^ 50) a }
    requires b { IsBelow (2 ^ 50) b }
    ensures value { result ≡ a -ℤ b }
    ensures range { IsBelow (2 ^ 51) result }
{
    a - b
}
