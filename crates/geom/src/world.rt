ghost use Rattle.std.specs.Prelude.{◌≡◌, ◌↔◌, IsTrue};
ghost use Rattle.geom.specs.World.{Meets, Overlap};

use crate::{Coordinate, Micro};
use std::marker::Model;

/// A place: a point of the world, longitude `x` and latitude `y`.
#[derive(Clone, Copy)]
pub struct World {
    x: Coordinate,
    y: Coordinate,
}

impl Model for World {
    ghost use Rattle.geom.specs.World.{Place};

    ghost Value = { Place };

    ghost view = { λ p. record { x = p.x; y = p.y } };

    ghost inverse = { λ p. record { x = p.x; y = p.y } };
}

impl World {
    /// The place of a longitude and a latitude.
    pub fn new(x: Coordinate, y: Coordinate) -> Self
        ensures { result ≡ record { x = x; y = y } }
    {
        World { x, y }
    }

    /// The longitude.
    pub fn x(self) -> Coordinate
        ensures { result ≡ self.x }
    {
        self.x
    }

    /// The latitude.
    pub fn y(self) -> Coordinate
        ensures { result ≡ self.y }
    {
        self.y
    }
}

/// A part of the world between two longitudes and two latitudes, its ends included.
#[derive(Clone, Copy, Debug)]
pub struct WorldBox {
    minx: Micro,
    miny: Micro,
    maxx: Micro,
    maxy: Micro,
}

impl Model for WorldBox {
    ghost use Rattle.geom.specs.World.{Area};

    ghost Value = { Area };

    ghost view = { λ b. record { minx = b.minx; miny = b.miny; maxx = b.maxx; maxy = b.maxy } };

    ghost inverse = { λ b. record { minx = b.minx; miny = b.miny; maxx = b.maxx; maxy = b.maxy } };
}

impl WorldBox {
    /// The box of its west, south, east and north side.
    pub fn new(minx: Micro, miny: Micro, maxx: Micro, maxy: Micro) -> Self
        ensures { result ≡ record { minx = minx; miny = miny; maxx = maxx; maxy = maxy } }
    {
        WorldBox {
            minx,
            miny,
            maxx,
            maxy,
        }
    }

    /// The longitude of the west side.
    pub fn minx(self) -> Micro
        ensures { result ≡ self.minx }
    {
        self.minx
    }

    /// The latitude of the south side.
    pub fn miny(self) -> Micro
        ensures { result ≡ self.miny }
    {
        self.miny
    }

    /// The longitude of the east side.
    pub fn maxx(self) -> Micro
        ensures { result ≡ self.maxx }
    {
        self.maxx
    }

    /// The latitude of the north side.
    pub fn maxy(self) -> Micro
        ensures { result ≡ self.maxy }
    {
        self.maxy
    }

    /// Whether some place lies in both boxes. A place on a border lies in the box, so boxes that
    /// only touch meet.
    pub fn meets(self, other: WorldBox) -> bool
        ensures { IsTrue result ↔ Meets self other }
    {
        overlap(self.minx, self.maxx, other.minx, other.maxx)
            && overlap(self.miny, self.maxy, other.miny, other.maxy)
    }
}

// Whether some number lies in both ranges, their ends included.
fn overlap(start: Micro, end: Micro, other_start: Micro, other_end: Micro) -> bool
    ensures { IsTrue result ↔ Overlap start end other_start other_end }
{
    let most = start.millionths().max(other_start.millionths());
    let least = end.millionths().min(other_end.millionths());
    most <= least
}
