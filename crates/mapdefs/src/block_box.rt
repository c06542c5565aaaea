ghost use Rattle.std.specs.Prelude.{◌≡◌, fold};
ghost use Rattle.geom.specs.World.{Place};
ghost use Rattle.mapdefs.specs.Blocks.{box_of_places, nowhere, with_place};

use geom::{Coordinate, GREATEST_COORDINATE, LEAST_COORDINATE, Micro, World};
use std::marker::Model;

/// How many successive edges of a part share a box.
pub const BLOCK_EDGES: usize = 32;

/// The box of a block of vertices: its sides are coordinates.
#[derive(Clone, Copy)]
pub struct BlockBox {
    minx: Coordinate,
    miny: Coordinate,
    maxx: Coordinate,
    maxy: Coordinate,
}

impl Model for BlockBox {
    ghost use Rattle.geom.specs.World.{Area};

    ghost Value = { Area };

    ghost view = { λ b. record { minx = b.minx; miny = b.miny; maxx = b.maxx; maxy = b.maxy } };

    ghost inverse = { λ b. record { minx = b.minx; miny = b.miny; maxx = b.maxx; maxy = b.maxy } };
}

impl BlockBox {
    /// The least box of some places.
    pub fn of(places: &[World]) -> Self
        ensures { result ≡ box_of_places places.now }
    {
        let mut grown = BlockBox::nowhere();
        for place in places {
            grown = grown.with_place(*place);
        }
        grown
    }

    // The box of no places.
    fn nowhere() -> Self
        ensures { result ≡ nowhere }
    {
        let most = Coordinate::new(Micro::new(GREATEST_COORDINATE));
        let least = Coordinate::new(Micro::new(LEAST_COORDINATE));
        BlockBox {
            minx: most,
            miny: most,
            maxx: least,
            maxy: least,
        }
    }

    // The box that the box and a place lie in.
    fn with_place(self, place: World) -> Self
        ensures { result ≡ with_place self place }
    {
        let (x, y) = (place.x(), place.y());
        BlockBox {
            minx: self.minx.min(x),
            miny: self.miny.min(y),
            maxx: self.maxx.max(x),
            maxy: self.maxy.max(y),
        }
    }

    /// The longitude of the west side.
    pub fn minx(self) -> Coordinate
        ensures { result ≡ self.minx }
    {
        self.minx
    }

    /// The latitude of the south side.
    pub fn miny(self) -> Coordinate
        ensures { result ≡ self.miny }
    {
        self.miny
    }

    /// The longitude of the east side.
    pub fn maxx(self) -> Coordinate
        ensures { result ≡ self.maxx }
    {
        self.maxx
    }

    /// The latitude of the north side.
    pub fn maxy(self) -> Coordinate
        ensures { result ≡ self.maxy }
    {
        self.maxy
    }
}
