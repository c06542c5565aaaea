ghost use Rattle.std.specs.Prelude.{◌≡◌, ◌<◌, ◌≤◌, ◌+◌, ◌*◌, ◌/◌, ◌^◌, pos, ◌+ℤ◌, ◌-ℤ◌, ◌*ℤ◌};
ghost use Rattle.std.specs.Int.{int_div_euclid};
ghost use Rattle.geom.specs.Range.{IsBelow};

use std::marker::Model;

/// One axis of a view, prepared for many places: it has divided by what its side shows, and divides no more. It counts
/// from the first pixel of the canvas.
#[derive(Drop)]
pub struct Axis {
    // The side in sixteenths of a pixel, and what it shows in millionths of a degree.
    times: u64,
    whole: u64,
    // The sixteenths before the canvas.
    first: u64,
    // As many wholes as lift each part above 0: their sum, and the sixteenths that they make, with those before the canvas.
    lifts: u64,
    lift: u64,
    back: u64,
    // What a lifted part is multiplied by, before the product is cut by 2^64.
    factor: u128,
}

impl Model for Axis {
    ghost use Rattle.viewport.specs.Axis.{AxisValue, IsAxis};

    ghost Value = { AxisValue };

    ghost view = { λ a. record { times = a.times; whole = a.whole; first = a.first } };

    ghost invariant = { λ a. IsAxis a.times a.whole a.first a.lifts a.lift a.back a.factor };
}

impl Axis {
    /// The axis of a side of so many sixteenths of a pixel, which shows a whole, of a canvas that begins so many
    /// sixteenths past its first. It divides twice.
    pub fn new(times: u64, whole: u64, first: u64) -> Self
        requires times { times ≤ 2 ^ 17 }
        requires first { first ≤ 2 ^ 17 }
        requires some { 0 < whole }
        requires whole { whole < 2 ^ 31 }
        requires coarse { times ≤ 2 ^ 15 * whole }
        ensures { result ≡ record { times = times; whole = whole; first = first } }
    {
        let lifts = 2_147_483_648 / whole + 1;
        Axis {
            times,
            whole,
            first,
            lifts,
            lift: whole * lifts,
            back: times * lifts + first,
            factor: (u128::from(times) << 64) / u128::from(whole) + 1,
        }
    }

    /// The share that a part has of the whole, in sixteenths of a pixel, rounded down, less those before the canvas. It
    /// divides nothing.
    pub fn sixteenths(&self, part: i64) -> i64
        requires { IsBelow (2 ^ 31) part }
        ensures value { result ≡ int_div_euclid (pos self.now.times *ℤ part) (pos self.now.whole) -ℤ pos self.now.first }
        ensures range { IsBelow (2 ^ 47) result }
    {
        lowered(scaled(lifted(part, self.lift), self.factor), self.back)
    }
}

// A part, lifted above 0.
fn lifted(part: i64, lift: u64) -> u64
    requires part { IsBelow (2 ^ 31) part }
    requires least { 2 ^ 31 ≤ lift }
    requires most { lift < 2 ^ 32 }
    ensures value { pos result ≡ part +ℤ pos lift }
    ensures range { result < 2 ^ 33 }
{
    (part + lift as i64) as u64
}

// The product with the factor, cut by 2^64.
fn scaled(lifted: u64, factor: u128) -> u64
    requires lifted { lifted < 2 ^ 33 }
    requires factor { factor < 2 ^ 82 }
    ensures value { result ≡ lifted * factor / 2 ^ 64 }
    ensures range { result < 2 ^ 51 }
{
    ((u128::from(lifted) * factor) >> 64) as u64
}

// A share of what was lifted, put back by the sixteenths of the lift.
fn lowered(share: u64, back: u64) -> i64
    requires share { share < 2 ^ 51 }
    requires back { back < 2 ^ 49 }
    ensures { result ≡ pos share -ℤ pos back }
{
    share as i64 - back as i64
}
