ghost use Rattle.std.specs.Prelude.{◌≡◌, length};

use crate::painted_maps::{letters_of, map_of_two};
use compose::picture;
use geom::{Micro, PictureSide, WorldBox};
use mapdefs::Map;
use scaledenom::Scale;
use std::alloc::{AllocError, Global};
use test_maps::InWindow;
use test_tables::{TableFault, check_rows};
use viewport::{Heights, MAX_MARGIN, View};

// The picture of the first layer of a map, four degrees by four in four pixels by four, where features are found in the
// window of that margin alone.
fn drawn_in_window(alloc: Global, map: &Map, margin: u16) -> Result<String, AllocError>
    requires { length map.now.layers ≡ 2 }
{
    let four = Micro::new(4_000_000);
    let side = PictureSide::new(4).unwrap();
    let view = View::new(
        Heights::Latitudes,
        WorldBox::new(Micro::new(0), Micro::new(0), four, four),
        side,
        side,
    );
    let window = view.window(margin.min(MAX_MARGIN));
    let near = InWindow::new(alloc, map, window);
    let scale = Scale::of(280_000, PictureSide::new(1).unwrap());
    match picture(alloc, map, &near, view, scale, &[0], None) {
        Ok(picture) => letters_of(alloc, &picture),
        Err(_) => format!(in alloc; "no memory"),
    }
}

// The result for a row: a margin, and the codes and the rings of a layer, in tenths of a degree. The margin of a
// layer is the greatest of the widths, the sizes and the sides of the symbols of its styles.
fn result_of_row(alloc: Global, row: &str) -> Result<String, AllocError> {
    let (margin, layer) = row.split_once(' ').unwrap_or(("", ""));
    let (codes, rings) = layer.split_once(';').unwrap_or(("", ""));
    let map = map_of_two(alloc, codes, rings)?;
    drawn_in_window(alloc, &map, margin.parse().unwrap_or(0))
}

const WINDOWS: &str = "\
____ #___ #___ #___=3 point #--3/- none;-5,20
no memory=2 point #--3/- none;-5,20
no memory=4 point #--3/- none;-5,20
###_ #oo_ #oo_ ____=3 point #--3/o--2 none;15,25
###_ #oo_ #oo_ ____=7 point #--3/o-72 none;15,25
no memory=3 point #--3/o-72 none;15,25
# a disc half a pixel left of the picture
____ #___ #___ ____=3 point #--32/- none;-5,20
no memory=2 point #--32/- none;-5,20
____ _oo_ _oo_ ____=5 polygon o-5/- none;10,10 30,10 30,30 10,30
no memory=1 polygon o-5/- none;10,10 30,10 30,30 10,30
no memory=4096 polygon o-5/- none;10,10 30,10 30,30 10,30";

#[test]
fn features_are_looked_for_as_far_off_as_styles_paint(rt: HostRuntime) -> Result<(), TableFault> {
    check_rows(rt.alloc(), WINDOWS, '=', 11, result_of_row)
}
