ghost use Rattle.std.specs.Prelude.{◌≡◌, ◌-ℤ◌, unsigned_abs};
ghost use Rattle.geom.specs.World.{IsExtent};
ghost use Rattle.mapmachine.specs.Machine.{heights_of, scale_of, view_of};

use crsaxes::Crs;
use geom::WorldBox;
use scaledenom::Scale;
use viewport::{Heights, View};
use wmsquery::MapRequest;

// What a picture in a system measures from south to north.
fn heights_of(crs: Crs) -> Heights
    ensures { result ≡ heights_of crs }
{
    match crs {
        Crs::Crs84 | Crs::Epsg4326 => Heights::Latitudes,
        Crs::Epsg3857 => Heights::Mercator,
    }
}

/// The view of a request: its area, by a picture of its sides.
pub fn view_of(request: &MapRequest) -> View
    requires { IsExtent request.now.area }
    ensures { result ≡ view_of request.now }
{
    View::new(
        heights_of(request.crs),
        request.area,
        request.width,
        request.height,
    )
}

// How many millionths of a degree wide an area is.
fn degrees_across(area: WorldBox) -> u32
    requires { IsExtent area }
    ensures { result ≡ unsigned_abs (area.maxx -ℤ area.minx) }
{
    (area.maxx().millionths() - area.minx().millionths()) as u32
}

/// The scale of a request: by its metres where its system is in metres, else by its degrees.
pub fn scale_of(request: &MapRequest) -> Scale
    requires { IsExtent request.now.area }
    ensures { result ≡ scale_of request.now }
{
    match request.metres {
        Some(metres) => Scale::of_metres(metres, request.width),
        None => Scale::of(degrees_across(request.area), request.width),
    }
}
