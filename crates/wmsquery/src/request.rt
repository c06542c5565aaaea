use crsaxes::Crs;
use geom::{PictureSide, WorldBox};
use mapdefs::{Items, Rgb};

/// The format of a picture.
#[derive(Clone, Copy)]
pub enum Format {
    /// Portable Network Graphics (PNG), in which a pixel may be transparent. It is one where the map offers it.
    Png,
    /// Netpbm's portable pixmap (PPM), in which each pixel has a colour.
    Pixmap,
    /// Netpbm's portable arbitrary map (PAM), in which a pixel may be transparent.
    ArbitraryMap,
}

/// A request for a picture.
#[derive(Drop)]
pub struct MapRequest {
    /// The indices of the layers in the map, in the order in which they are painted.
    pub chosen: Items<usize>,
    /// The coordinate reference system of the picture.
    pub crs: Crs,
    /// The area that the picture shows, in degrees, or in web mercator in degrees of the equator.
    pub area: WorldBox,
    /// The width of the area in millionths of a metre, where its system is in metres.
    pub metres: Option<u64>,
    /// The width of the picture.
    pub width: PictureSide,
    /// The height of the picture.
    pub height: PictureSide,
    /// The format of the picture.
    pub format: Format,
    /// The colour where nothing is painted, or none: there the picture is transparent.
    pub background: Option<Rgb>,
}

/// A request for the features that are seen near a pixel of a picture.
#[derive(Drop)]
pub struct InformationRequest {
    /// The picture.
    pub map: MapRequest,
    /// The indices of the layers whose features are requested, in the order of the answer.
    pub layers: Items<usize>,
    /// The most features of a layer in the answer.
    pub count: u32,
    /// The column of the pixel, counted from 0.
    pub column: u16,
    /// The row of the pixel, counted from 0.
    pub row: u16,
}

/// The request that a query makes.
#[derive(Drop)]
pub enum Request {
    /// The capabilities document.
    Capabilities,
    /// A picture.
    Map(MapRequest),
    /// Feature information.
    Information(InformationRequest),
}
