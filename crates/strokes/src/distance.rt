ghost use Rattle.std.specs.Prelude.{◌≡◌, ◌^◌, pos, ◌+ℤ◌, ◌-ℤ◌, ◌*ℤ◌, ◌≤ℤ◌};
ghost use Rattle.geom.specs.Range.{IsBelow};
ghost use Rattle.strokes.specs.Round.{along, apart, aside};

use crate::number::{difference, minus, product};
use geom::Device;

/// How far a point lies right of another one.
pub fn across(a: Device, p: Device) -> i64
    ensures value { result ≡ p.x -ℤ a.x }
    ensures range { IsBelow (2 ^ 48) result }
{
    difference(p.x(), a.x())
}

/// How far it lies below it.
pub fn down(a: Device, p: Device) -> i64
    ensures value { result ≡ p.y -ℤ a.y }
    ensures range { IsBelow (2 ^ 48) result }
{
    difference(p.y(), a.y())
}

/// The sum of two products.
pub fn plus(a: i128, b: i128) -> i128
    requires a { IsBelow (2 ^ 96) a }
    requires b { IsBelow (2 ^ 96) b }
    ensures value { result ≡ a +ℤ b }
    ensures range { IsBelow (2 ^ 97) result }
{
    a + b
}

/// The difference of two sums.
pub fn minus_wide(a: i128, b: i128) -> i128
    requires a { IsBelow (2 ^ 97) a }
    requires b { IsBelow (2 ^ 97) b }
    ensures value { result ≡ a -ℤ b }
    ensures range { IsBelow (2 ^ 98) result }
{
    a - b
}

/// The square of the distance of two points.
pub fn apart(a: Device, p: Device) -> i128
    ensures value { result ≡ apart a p }
    ensures least { pos 0 ≤ℤ result }
    ensures range { IsBelow (2 ^ 97) result }
{
    let (across, down) = (across(a, p), down(a, p));
    plus(product(across, across), product(down, down))
}

/// How far along an edge a point lies, times the edge's length.
pub fn along(from: Device, to: Device, p: Device) -> i128
    ensures value { result ≡ along (record { from = from; to = to }) p }
    ensures range { IsBelow (2 ^ 97) result }
{
    plus(
        product(across(from, p), across(from, to)),
        product(down(from, p), down(from, to)),
    )
}

/// How far aside of its line it lies, times its length.
pub fn aside(from: Device, to: Device, p: Device) -> i128
    ensures value { result ≡ aside (record { from = from; to = to }) p }
    ensures range { IsBelow (2 ^ 97) result }
{
    minus(
        product(down(from, p), across(from, to)),
        product(across(from, p), down(from, to)),
    )
}
