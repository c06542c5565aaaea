ghost use Rattle.std.specs.Prelude.{◌≡◌, ◌^◌, ◌-ℤ◌, ◌*ℤ◌, int_le};
ghost use Rattle.geom.specs.Range.{IsBelow};

use crate::Device;
use std::marker::Model;

/// An edge of a ring: the straight line from one device point to another.
#[derive(Clone, Copy)]
pub struct Edge {
    from: Device,
    to: Device,
}

impl Model for Edge {
    ghost use Rattle.geom.specs.Edge.{EdgeEnds, IsDeviceEdge};

    ghost Value = { EdgeEnds };

    ghost view = { λ e. record { from = e.from; to = e.to } };

    ghost invariant = { λ e. IsDeviceEdge (record { from = e.from; to = e.to }) };

    ghost inverse = { λ e. record { from = e.from; to = e.to } };
}

impl Edge {
    ghost use Rattle.geom.specs.Edge.{IsDeviceEdge, low_end, high_end, rise, run, crosses_height, crosses_at_or_left, meets_at_or_left};

    /// The edge from one point to another.
    pub fn new(from: Device, to: Device) -> Self
        ensures { result ≡ record { from = from; to = to } }
    {
        Edge { from, to }
    }

    /// The end with the smaller y, which lies higher up in the picture; of two equally high ones the
    /// first.
    pub fn low_end(self) -> Device
        ensures { result ≡ low_end self }
    {
        if self.from.y() <= self.to.y() {
            self.from
        } else {
            self.to
        }
    }

    /// The other end.
    pub fn high_end(self) -> Device
        ensures { result ≡ high_end self }
    {
        if self.from.y() <= self.to.y() {
            self.to
        } else {
            self.from
        }
    }

    /// How much y grows from the low end to the high end, in sixteenths of a pixel: 0 for a horizontal
    /// edge, and never less.
    pub fn rise(self) -> i64
        ensures value { result ≡ rise self }
        ensures range { IsBelow (2 ^ 48) result }
        ensures limits { IsDeviceEdge self }
    {
        self.high_end().y() - self.low_end().y()
    }

    /// How much x grows from the low end to the high end, in sixteenths of a pixel. It is below 0 where
    /// the edge goes to the left.
    pub fn run(self) -> i64
        ensures value { result ≡ run self }
        ensures range { IsBelow (2 ^ 48) result }
    {
        self.high_end().x() - self.low_end().x()
    }

    // Whether exactly one end has a y of at most the height.
    fn crosses_height(self, height: i64) -> bool
        ensures { result ≡ crosses_height self height }
    {
        (self.from.y() <= height) != (self.to.y() <= height)
    }

    // Whether the edge's line meets the height of the point at the point or left of it.
    fn meets_at_or_left(self, point: Device) -> bool
        ensures { result ≡ meets_at_or_left point self }
    {
        let low = self.low_end();
        let high = self.high_end();
        is_product_at_most(
            difference(point.y(), low.y()),
            difference(high.x(), low.x()),
            difference(point.x(), low.x()),
            difference(high.y(), low.y()),
        )
    }

    /// Whether the edge crosses the height of the point, at the point or left of it. The even-odd
    /// rule counts these crossings.
    pub fn crosses_at_or_left(self, point: Device) -> bool
        ensures { result ≡ crosses_at_or_left point self }
    {
        self.crosses_height(point.y()) && self.meets_at_or_left(point)
    }
}

// The difference of two numbers of device points.
fn difference(a: i64, b: i64) -> i128
    requires a { IsBelow (2 ^ 47) a }
    requires b { IsBelow (2 ^ 47) b }
    ensures value { result ≡ a -ℤ b }
    ensures range { IsBelow (2 ^ 48) result }
{
    i128::from(a - b)
}

// Whether the product of two differences is at most that of two others.
fn is_product_at_most(a: i128, b: i128, c: i128, d: i128) -> bool
    requires a { IsBelow (2 ^ 48) a }
    requires b { IsBelow (2 ^ 48) b }
    requires c { IsBelow (2 ^ 48) c }
    requires d { IsBelow (2 ^ 48) d }
    ensures { result ≡ int_le (a *ℤ b) (c *ℤ d) }
{
    a * b <= c * d
}
