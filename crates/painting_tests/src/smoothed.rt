ghost use Rattle.std.specs.Prelude.{◌≡◌, length};

use crate::blocks::{fine, scale};
use crate::painted_maps::{colour_of, map_of_two};
use compose::PictureQuery;
use mapdefs::{AllFeatures, Map, Rgb, Rgba, SmoothPicture};
use std::alloc::{AllocError, Global};
use supersampling::{FineScene, smooth_picture};
use test_tables::{TableFault, check_rows};
use viewport::Fine;

/// The smoothed picture of a view: the first layer over a background that may be none.
pub(crate) fn smoothed(
    alloc: Global,
    map: &Map,
    fine: Fine,
    background: Option<Rgb>,
) -> Result<SmoothPicture, AllocError>
    requires { length map.now.layers ≡ 2 }
{
    let near = AllFeatures::of(alloc, map);
    let scene = FineScene::new(map, fine, scale());
    let asked = PictureQuery {
        chosen: &[0],
        background,
    };
    smooth_picture(alloc, &scene, &near, &asked)
}

// Red, green, blue and alpha of a pixel.
fn write_pixel(text: &mut String, pixel: &Rgba) -> Result<(), AllocError> {
    let separator = if text.is_empty() { "" } else { " " };
    write!(
        text,
        "{separator}{},{},{},{}",
        pixel.red, pixel.green, pixel.blue, pixel.alpha
    )?;
    Ok(())
}

// The pixels of a picture of two pixels by two for a row: the letter of the background, and the rings of a polygon in tenths of a degree.
fn pixels_of_row(alloc: Global, row: &str) -> Result<String, AllocError> {
    let (ground, rings) = row.split_once(';').unwrap_or(("", ""));
    let map = map_of_two(alloc, "polygon #/- none", rings)?;
    let background = colour_of(ground.as_bytes().first().copied().unwrap_or(b'-'));
    let picture = smoothed(alloc, &map, fine().ok_or(AllocError)?, background)?;
    let mut text = String::new(alloc);
    for pixel in picture.get().pixels.as_slice() {
        write_pixel(&mut text, pixel)?;
    }
    Ok(text)
}

// Polygons whose fine pixels are four by four. 255 / 4 is 63.75.
const MEANS: &str = "\
100,60,20,64 100,60,20,64 100,60,20,64 100,60,20,64=-;10,10 30,10 30,30 10,30
216,206,196,255 216,206,196,255 216,206,196,255 216,206,196,255=.;10,10 30,10 30,30 10,30
# right of a polygon nothing is painted
100,60,20,255 0,0,0,0 100,60,20,255 0,0,0,0=-;-10,-10 25,-10 25,50 -10,50
# three of four pixels, whose means are 77.5, 50 and 22.5
78,50,23,255 10,20,30,255 10,20,30,255 10,20,30,255=o;0,40 20,40 20,30 10,30 10,20 0,20
100,60,20,191 0,0,0,0 0,0,0,0 0,0,0,0=-;0,40 20,40 20,30 10,30 10,20 0,20";

#[test]
fn smoothed_pixels_are_means(rt: HostRuntime) -> Result<(), TableFault> {
    check_rows(rt.alloc(), MEANS, '=', 5, pixels_of_row)
}
