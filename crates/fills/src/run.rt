ghost use Rattle.std.specs.Prelude.{◌≡◌, ◌&&◌, int_le};
ghost use Rattle.geom.specs.World.{IsExtent};
ghost use Rattle.clip.specs.EdgeClass.{first_row};
ghost use Rattle.viewport.specs.View.{IsView};
ghost use Rattle.fills.specs.Flipped.{column_of, is_in_column, is_left, is_right, IsCorner, IsRun};
ghost use Rattle.canvas.specs.Latitudes.{row_of};

use canvas::{Band, RowLatitudes, row_at};
use clip::first_row;
use geom::{Coordinate, Device, World};
use mapdefs::BlockBox;
use std::marker::Model;
use viewport::Projection;

/// A run of a ring's vertices in one row of the picture: the last of them, the row, and two latitudes of that row
/// between which that vertex lies. Each latitude between them is of the row, too.
#[derive(Clone, Copy)]
pub struct Run {
    pub from: World,
    pub row: u16,
    pub low: Coordinate,
    pub high: Coordinate,
}

impl Run {
    /// Whether a latitude lies between the two of the run.
    pub fn has(&self, latitude: Coordinate) -> bool
        ensures { result ≡ (int_le self.now.low latitude && int_le latitude self.now.high) }
    {
        is_at_most(self.low, latitude) && is_at_most(latitude, self.high)
    }
}

/// A vertex of a ring: its place, where it lies on the picture, and the first row whose pixel centres lie at it or below
/// it, or the canvas's height.
#[derive(Clone, Copy)]
pub struct Corner {
    pub from: World,
    pub at: Device,
    pub row: u16,
}

/// Finds the rows of a picture for latitudes.
#[derive(Drop)]
pub struct RowFinder<'a> {
    projection: &'a Projection,
    bands: &'a [Band],
}

impl<'a> Model for RowFinder<'a> {
    ghost use Rattle.viewport.specs.View.{ViewValue};
    ghost use Rattle.canvas.specs.Latitudes.{AreBands};

    ghost Value = { ViewValue };

    ghost view = { λ r. r.projection.now };

    ghost invariant = { λ r. AreBands r.projection.now r.bands.now };
}

impl<'a> RowFinder<'a> {
    /// A finder of the rows of a projection's picture, with a table of their latitudes.
    pub fn new(projection: &'a Projection, latitudes: &'a RowLatitudes) -> Self
        ensures { result ≡ projection.now }
    {
        RowFinder {
            projection,
            bands: latitudes.bands(projection),
        }
    }

    /// The projection of the picture.
    pub fn projection(&self) -> &Projection
        ensures { result.now ≡ self.now }
    {
        self.projection
    }

    /// The first row whose pixel centres lie at that latitude or below it, or the canvas's height.
    pub fn row_of(&self, latitude: Coordinate) -> u16
        ensures { result ≡ row_of self.now latitude }
    {
        row_at(self.projection, latitude)
    }

    /// The vertex of a ring at a place.
    // Inlined, since a call hands the corner's 48 bytes through memory.
    #[inline(always)]
    pub fn corner(&self, from: World) -> Corner
        ensures from { result.from ≡ from }
        ensures corner { IsCorner self.now result }
    {
        let at = self.projection.device(from);
        let row = first_row(at.y(), self.projection.height());
        Corner { from, at, row }
    }

    /// The run that begins with a vertex of that row.
    pub fn begin(&self, from: World, row: u16) -> Run
        requires { row_of self.now from.y ≡ row }
        ensures from { result.from ≡ from }
        ensures run { IsRun self.now result }
    {
        let _area = self.projection.area();
        let latitude = from.y();
        let at = usize::from(row);
        if at < self.bands.len() {
            let band = self.bands[at];
            if is_at_most(band.south, latitude) && is_at_most(latitude, band.north) {
                return Run {
                    from,
                    row,
                    low: band.south,
                    high: band.north,
                };
            }
        }
        Run {
            from,
            row,
            low: latitude,
            high: latitude,
        }
    }

    /// Whether a box lies right of the whole picture. A chain of vertices in it adds no flips.
    pub fn is_right(&self, area: BlockBox) -> bool
        ensures value { result ≡ is_right self.now area }
        ensures limits { IsView self.now }
    {
        let _columns = self.projection.columns();
        self.projection.area().maxx().millionths() < area.minx().get().millionths()
    }

    /// Whether a box lies left of the whole picture. A chain of vertices in it adds the flips of its chord.
    pub fn is_left(&self, area: BlockBox) -> bool
        ensures value { result ≡ is_left self.now area }
        ensures limits { IsView self.now }
    {
        let _columns = self.projection.columns();
        area.maxx().get().millionths() <= self.projection.area().minx().millionths()
    }

    /// Whether no pixel centre of the canvas lies between the west side of a box and its east side. A chain of vertices
    /// in it adds the flips of its chord.
    pub fn is_in_column(&self, area: BlockBox) -> bool
        ensures value { result ≡ is_in_column self.now area }
        ensures limits { IsExtent self.now.area }
    {
        let _area = self.projection.area();
        self.column_of(area.minx()) == self.column_of(area.maxx())
    }

    // The first column whose pixel centres lie at that longitude or right of it, or the canvas's width.
    fn column_of(&self, longitude: Coordinate) -> u16
        ensures { result ≡ column_of self.now longitude }
    {
        first_row(self.projection.across(longitude), self.projection.width())
    }
}

// Whether a latitude is at most another.
fn is_at_most(a: Coordinate, b: Coordinate) -> bool
    ensures { result ≡ int_le a b }
{
    a.get().millionths() <= b.get().millionths()
}
