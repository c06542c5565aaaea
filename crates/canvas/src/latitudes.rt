ghost use Rattle.std.specs.Prelude.{◌≡◌, ◌<◌, ◌+◌, pos, IfOk};
ghost use Rattle.canvas.specs.Latitudes.{AreBands, IsBand, row_of};

use clip::first_row;
use geom::{Coordinate, GREATEST_COORDINATE, LEAST_COORDINATE, Micro};
use std::alloc::{AllocError, Global};
use std::marker::Model;
use viewport::{Projection, View};

/// Two latitudes of a row of a canvas: each latitude between them is of that row. If the southern one is the greater,
/// the band is empty, and they needn't be of the row.
#[derive(Clone, Copy)]
pub struct Band {
    pub south: Coordinate,
    pub north: Coordinate,
}

/// The bands of the rows of a view's canvas, from the top, and last the band of what lies below them; or none yet. Each is
/// guessed, and tested when the table is made. The table keeps the view.
#[derive(Drop)]
pub struct RowLatitudes {
    view: View,
    bands: Vec<Band>,
}

impl Model for RowLatitudes {
    ghost use Rattle.canvas.specs.Latitudes.{AreBands, BandsValue};

    ghost Value = { BandsValue };

    ghost view = { λ r. record { view = r.view; bands = r.bands.items } };

    ghost invariant = { λ r. AreBands r.view r.bands.items };
}

impl RowLatitudes {
    // No bands yet of a projection's canvas. It takes no memory.
    pub(crate) fn new(alloc: Global, projection: &Projection) -> Self {
        RowLatitudes {
            view: projection.view(),
            bands: Vec::new(alloc),
        }
    }

    // The bands of a projection's canvas. It divides once for each row.
    pub(crate) fn of(alloc: Global, projection: &Projection) -> Result<Self, AllocError> {
        let bands = bands_of(alloc, projection)?;
        Ok(RowLatitudes {
            view: projection.view(),
            bands,
        })
    }

    // Whether it has no bands yet.
    pub(crate) fn is_empty(&self) -> bool {
        self.bands.is_empty()
    }

    /// The bands, or none if the projection is of another view.
    pub fn bands(&self, projection: &Projection) -> &[Band]
        ensures { AreBands projection.now result.now }
    {
        if projection.shows(self.view) {
            return self.bands.as_slice();
        }
        &[]
    }
}

// The bands of a canvas's rows.
fn bands_of(alloc: Global, projection: &Projection) -> Result<Vec<Band>, AllocError>
    ensures { IfOk result (λ bands. AreBands projection.now bands.items) }
{
    let rows = projection.height().pixels();
    let mut bands = Vec::with_capacity(alloc, usize::from(rows) + 1)?;
    let mut north = Coordinate::new(Micro::new(GREATEST_COORDINATE));
    for row in 0..rows + 1 {
        let south = about_south(projection, row);
        bands.push(band_of(projection, row, south, north))?;
        north = southward(south);
    }
    Ok(bands)
}

// The band of a row: the one between two guessed latitudes if both are of the row, else an empty one.
fn band_of(projection: &Projection, row: u16, south: Coordinate, north: Coordinate) -> Band
    ensures { IsBand projection.now row result }
{
    let rows = (row_at(projection, south), row_at(projection, north));
    if rows.0 == row && rows.1 == row {
        return Band { south, north };
    }
    Band {
        south: latitude(1),
        north: latitude(0),
    }
}

// The latitude with so many millionths of a degree.
fn latitude(millionths: u8) -> Coordinate
    ensures { result ≡ pos millionths }
{
    Coordinate::new(Micro::new(i64::from(millionths)))
}

/// The first row whose pixel centres lie at that latitude or below it, or the canvas's height.
pub fn row_at(projection: &Projection, latitude: Coordinate) -> u16
    ensures { result ≡ row_of projection.now latitude }
{
    first_row(projection.down(latitude), projection.height())
}

// A guess of the southernmost latitude of a row. The northernmost one of the row below is next to it.
fn about_south(projection: &Projection, row: u16) -> Coordinate {
    if row < projection.height().pixels() {
        projection.about_south(row)
    } else {
        Coordinate::new(Micro::new(LEAST_COORDINATE))
    }
}

// The next latitude further south, if there is one.
fn southward(latitude: Coordinate) -> Coordinate {
    let number = latitude.get().millionths();
    if number > LEAST_COORDINATE {
        Coordinate::new(Micro::new(number - 1))
    } else {
        latitude
    }
}
