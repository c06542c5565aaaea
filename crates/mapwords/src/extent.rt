ghost use Rattle.std.specs.Prelude.{◌≡◌};
ghost use Rattle.geom.specs.World.{IsExtent};
ghost use Rattle.mapwords.specs.Extent.{is_coordinate, has_area, extent_of};

use geom::{COORDINATE_LIMIT, Micro, WorldBox};
use std::marker::Model;

/// The part of the world that a map shows. It has an area.
#[derive(Drop)]
pub struct Extent {
    area: WorldBox,
}

impl Model for Extent {
    ghost use Rattle.geom.specs.World.{Area, IsExtent};

    ghost Value = { Area };

    ghost view = { λ e. e.area };

    ghost invariant = { λ e. IsExtent e.area };
}

// Whether the number is a coordinate.
fn is_coordinate(number: Micro) -> bool
    ensures { result ≡ is_coordinate number }
{
    number.millionths().unsigned_abs() <= COORDINATE_LIMIT
}

// Whether the east lies to the east of the west, and the north to the north of the south.
fn has_area(minx: Micro, miny: Micro, maxx: Micro, maxy: Micro) -> bool
    ensures { result ≡ has_area minx miny maxx maxy }
{
    minx < maxx && miny < maxy
}

impl Extent {
    /// The extent of these sides, if they are coordinates and it has an area.
    pub fn of(minx: Micro, miny: Micro, maxx: Micro, maxy: Micro) -> Option<Self>
        ensures { result ≡ extent_of minx miny maxx maxy }
    {
        let west_and_south = is_coordinate(minx) && is_coordinate(miny);
        let east_and_north = is_coordinate(maxx) && is_coordinate(maxy);
        if west_and_south && east_and_north && has_area(minx, miny, maxx, maxy) {
            let area = WorldBox::new(minx, miny, maxx, maxy);
            Some(Extent { area })
        } else {
            None
        }
    }

    /// The box of the world.
    pub fn get(&self) -> WorldBox
        ensures value { result ≡ self.now }
        ensures limits { IsExtent result }
    {
        self.area
    }
}
