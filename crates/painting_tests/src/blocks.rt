ghost use Rattle.std.specs.Prelude.{◌≡◌, None, length, IfSome};
ghost use Rattle.viewport.specs.View.{IsOnSide};

use crate::painted_maps::{letters_of, map_of_two};
use compose::{Labels, PictureQuery, draw_block};
use geom::{Factor, Micro, PictureSide, WorldBox};
use mapdefs::{AllFeatures, Map, Picture, Rgb};
use scaledenom::Scale;
use std::alloc::{AllocError, Global};
use supersampling::FineScene;
use test_tables::{TableFault, check_rows, numbers};
use viewport::{Fine, Heights, Stretch, View};

/// The picture of four degrees by four in two pixels by two, twice as fine.
pub(crate) fn fine() -> Option<Fine> {
    let (low, high) = (Micro::new(0), Micro::new(4_000_000));
    let side = PictureSide::with_last(1);
    let view = View::new(
        Heights::Latitudes,
        WorldBox::new(low, low, high, high),
        side,
        side,
    );
    Fine::new(view, Factor::new(2)?)
}

/// The scale of 0.28 degrees in a pixel.
pub(crate) fn scale() -> Scale {
    Scale::of(280_000, PictureSide::with_last(0))
}

// So many columns or rows of a side from one on, as `1,2`.
fn stretch(text: &str, side: u16) -> Option<Stretch>
    ensures { IfSome result (λ stretch. IsOnSide side stretch.first stretch.count) }
{
    let [first, count] = numbers::<2>(text, ',')?;
    let first = u16::try_from(first).ok()?;
    let count = PictureSide::new(u16::try_from(count).ok()?)?;
    if first > side || count.pixels() > side - first {
        return None;
    }
    Some(Stretch { first, count })
}

// The first pixel of a side.
fn first_pixel() -> Stretch
    ensures first { result.first ≡ 0 }
    ensures count { result.count ≡ 1 }
{
    Stretch {
        first: 0,
        count: PictureSide::with_last(0),
    }
}

// A block of the fine picture: the first layer over white.
fn block(
    alloc: Global,
    map: &Map,
    fine: Fine,
    sides: (Stretch, Stretch),
) -> Result<Picture, AllocError>
    requires layers { length map.now.layers ≡ 2 }
    requires across { IsOnSide fine.columns sides.0.first sides.0.count }
    requires down { IsOnSide fine.rows sides.1.first sides.1.count }
{
    let near = AllFeatures::of(alloc, map);
    let scene = FineScene::new(map, fine, scale());
    let asked = PictureQuery {
        chosen: &[0],
        background: Some(Rgb {
            red: 255,
            green: 255,
            blue: 255,
        }),
    };
    let corner = scene.block(first_pixel(), first_pixel());
    let labels = Labels::of_whole(alloc, &corner, &near, asked.chosen)?;
    let canvas = draw_block(&scene.block(sides.0, sides.1), &near, &asked, &labels)?;
    Ok(canvas.into_picture())
}

// The block for a row: its columns and rows, and the codes and the rings of a layer, in tenths of a degree.
fn block_of_row(alloc: Global, row: &str) -> Result<String, AllocError> {
    let (sides, layer) = row.split_once(';').unwrap_or(("", ""));
    let (across, down) = sides.split_once(' ').unwrap_or(("", ""));
    let (codes, rings) = layer.split_once(';').unwrap_or(("", ""));
    let map = map_of_two(alloc, codes, rings)?;
    let fine = fine().ok_or(AllocError)?;
    let across = stretch(across, fine.columns()).ok_or(AllocError)?;
    let down = stretch(down, fine.rows()).ok_or(AllocError)?;
    letters_of(alloc, &block(alloc, &map, fine, (across, down))?)
}

// Blocks of pictures of four fine pixels by four.
const BLOCKS: &str = "\
.... .##. .##. ....=0,4 0,4;polygon #/- none;10,10 30,10 30,30 10,30
#. .. ..=2,2 1,3;polygon #/- none;10,20 30,20 30,30 10,30
.# .#=0,2 1,2;polygon #/- none;10,10 30,10 30,30 10,30
#. #.=2,2 1,2;polygon #/- none;10,10 30,10 30,30 10,30
# right of a polygon, and within one
. .=3,1 2,2;polygon #/- none;-10,-10 25,-10 25,50 -10,50
## ##=1,2 2,2;polygon #/- none;-10,-10 55,-10 55,50 -10,50
# a line and squares of a pixel of the map, and a pixmap, that reach into the block
## #.=2,2 1,2;line #-1/- none;5,5 35,35
#.. ... ...=1,3 1,3;point #--1/- none;5,35
## ## ..=2,2 1,3;point #--1/- none;25,25
#o .#=2,2 0,2;point #---0/- none;35,25
# discs: on a corner of pixels, on a pixel centre, and round a point between them, not round its pixel
.... .##. .##. ....=0,4 0,4;point #--12/- none;20,20
..#. .### ..#. ....=0,4 0,4;point #--12/- none;25,25
.... ..#. ..#. ....=0,4 0,4;point #--12/- none;24,20
# a ring over its disc, a ring alone, and one of half the size, which is the whole disc
oooo o##o o##o oooo=0,4 0,4;point #o132/- none;20,20
oooo o..o o..o oooo=0,4 0,4;point -o132/- none;20,20
.oo. oooo oooo .oo.=0,4 0,4;point #o122/- none;20,20
# discs that reach into the block, of a point within it and of one before it
### .#. ...=1,3 1,3;point #--12/- none;25,25
#.. ... ...=1,3 1,3;point #--22/- none;5,35";

#[test]
fn blocks_have_what_the_whole_picture_has(rt: HostRuntime) -> Result<(), TableFault> {
    check_rows(rt.alloc(), BLOCKS, '=', 18, block_of_row)
}
