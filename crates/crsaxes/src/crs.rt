ghost use Rattle.std.specs.Prelude.{◌≡◌};
ghost use Rattle.crsaxes.specs.Axes.{crs_of};

/// A coordinate reference system.
#[derive(Clone, Copy)]
pub enum Crs {
    /// `CRS:84`: the longitude first.
    Crs84,
    /// `EPSG:4326`: the latitude first.
    Epsg4326,
    /// `EPSG:3857`, web mercator: the easting first. Both axes are in metres.
    Epsg3857,
}

/// The coordinate reference system of a name, which is compared byte by byte; `None` where no known
/// system has it, or only web mercator and it isn't offered.
pub fn crs_of(mercator: bool, name: &str) -> Option<Crs>
    ensures { result ≡ crs_of mercator name.now }
{
    if name == "CRS:84" {
        Some(Crs::Crs84)
    } else if name == "EPSG:4326" {
        Some(Crs::Epsg4326)
    } else if mercator && name == "EPSG:3857" {
        Some(Crs::Epsg3857)
    } else {
        None
    }
}
