ghost use Rattle.std.specs.Prelude.{IsTrue};
ghost use Rattle.viewport.specs.View.{IsOnSide};

use crate::views::view;
use geom::{Factor, MAX_FACTOR, PictureSide, World, WorldBox};
use std::alloc::{AllocError, Global};
use test_maps::place;
use test_tables::{TableFault, check_rows, numbers};
use viewport::{Fine, MAX_MARGIN, Stretch, View};

// So many pixels of a side from one on, by their numbers.
fn stretch(first: i64, count: i64) -> Option<Stretch> {
    let first = u16::try_from(first).ok()?;
    let count = PictureSide::new(u16::try_from(count).ok()?)?;
    Some(Stretch { first, count })
}

// Whether a side has them.
fn has_stretch(pixels: u16, stretch: Stretch) -> bool
    ensures { IsTrue result → IsOnSide pixels stretch.first stretch.count }
{
    let count = stretch.count.pixels();
    count <= pixels && stretch.first <= pixels - count
}

// The view by a block of a picture that is so many times as fine as that of a name: its first column and row, its width
// and its height.
fn block(name: &str, [factor, left, top, width, height]: [i64; 5]) -> Option<View> {
    let fine = Fine::new(view(name)?, Factor::new(u8::try_from(factor).ok()?)?)?;
    let (across, down) = (stretch(left, width)?, stretch(top, height)?);
    if !has_stretch(fine.columns(), across) || !has_stretch(fine.rows(), down) {
        return None;
    }
    Some(fine.block(across, down))
}

// The device point of a place and its pixel, worked by hand, a view's name, a block of its picture, and the place.
const POINTS: &str = "\
# in the square twice as fine 32 sixteenths are a degree, and a block is that less 16 for each column and row before it
32 96 2 6=square 2 0 0 8 8 1000000 1000000
-32 64 -2 4=square 2 4 2 3 2 1000000 1000000
32 16 2 1=square 2 4 2 3 2 3000000 2500000
-65 -33 -5 -3=square 2 4 2 3 2 -1 4000001
# four times as fine, 64 are a degree
240 16 15 1=square 4 1 15 2 1 4000000 0
-16 -240 -1 -15=square 4 1 15 2 1 0 4000000
# in the oblong three times as fine 64 are a degree to the right and 16 down
-16 -48 -1 -3=oblong 3 5 4 7 2 1000000 5000000
48 16 3 1=oblong 3 5 4 7 2 2000000 1000000
# the last 192 of 8,192 columns of the world, of which a millionth is 131,072 in 2,000,000,000
-62464 -16 -3904 -1=wide 4 8000 3 192 1 0 0
3072 16 192 1=wide 4 8000 3 192 1 1000000000 -1000000000
-62460 -17 -3904 -2=wide 4 8000 3 192 1 61036 61036
# once as fine, all of it
16 48 1 3=square 1 0 0 4 4 1000000 1000000
# a block reaches beyond the picture, or has no column; or a pixel would be less than a millionth's 2,048th
none=square 2 6 0 3 8 0 0
none=square 2 8 0 0 8 0 0
none=dot 2 0 0 4 4 0 0
none=thirds 4 0 0 1 1 0 0
# and 3 millionths are 48 sixteenths by 98,304
16 32768 1 2048=thirds 3 0 0 1 1 1 2";

// The view and the place of a row.
fn view_and_place(row: &str) -> Option<(View, World)> {
    let (name, rest) = row.split_once(' ')?;
    let [factor, left, top, width, height, x, y] = numbers::<7>(rest, ' ')?;
    let view = block(name, [factor, left, top, width, height])?;
    Some((view, place([x, y])))
}

fn point(alloc: Global, row: &str) -> Result<String, AllocError> {
    let Some((view, at)) = view_and_place(row) else {
        return format!(in alloc; "none");
    };
    let (point, pixel) = (view.device(at), view.pixel(at));
    let (x, y, i, j) = (point.x(), point.y(), pixel.i(), pixel.j());
    format!(in alloc; "{x} {y} {i} {j}")
}

#[test]
fn points_of_blocks_are_worked(rt: HostRuntime) -> Result<(), TableFault> {
    check_rows(rt.alloc(), POINTS, '=', 17, point)
}

// The west, south, east and north side of a window, worked by hand, a view's name, a block of its picture, and a margin.
const WINDOWS: &str = "\
# a pixel of the square twice as fine is half a degree
2000000 2000000 3500000 3000000=square 2 4 2 3 2 0
1500000 1500000 4000000 3500000=square 2 4 2 3 2 1
-500000 -500000 6000000 5500000=square 2 4 2 3 2 5
# one of the oblong three times as fine is 250,000 by 1,000,000 millionths
1250000 0 3000000 2000000=oblong 3 5 4 7 2 0
1000000 -1000000 3250000 3000000=oblong 3 5 4 7 2 1
-500000 -7000000 4750000 9000000=oblong 3 5 4 7 2 7
# one of the wide world four times as fine is 244,140 and five eighths by 500,000,000
953125000 -1000000000 1000000000 -500000000=wide 4 8000 3 192 1 0
-46875000 -2049000000000 2000000000 2047500000000=wide 4 8000 3 192 1 4096
# one of the thirds three times as fine is a millionth by a 2,048th
1 2 2 3=thirds 3 1 1 1 1 0
0 2 3 3=thirds 3 1 1 1 1 1
-1 2 4 4=thirds 3 1 1 1 1 2
-3 2 6 4=thirds 3 1 1 1 1 4";

// The window of a row.
fn window_of(row: &str) -> Option<WorldBox> {
    let (name, rest) = row.split_once(' ')?;
    let [factor, left, top, width, height, margin] = numbers::<6>(rest, ' ')?;
    let view = block(name, [factor, left, top, width, height])?;
    Some(view.window(u16::try_from(margin).ok()?.min(MAX_MARGIN)))
}

fn window(alloc: Global, row: &str) -> Result<String, AllocError> {
    let Some(window) = window_of(row) else {
        return format!(in alloc; "none");
    };
    let (west, south) = (window.minx().millionths(), window.miny().millionths());
    let (east, north) = (window.maxx().millionths(), window.maxy().millionths());
    format!(in alloc; "{west} {south} {east} {north}")
}

#[test]
fn windows_of_blocks_have_worked_sides(rt: HostRuntime) -> Result<(), TableFault> {
    check_rows(rt.alloc(), WINDOWS, '=', 12, window)
}

#[test]
fn pixels_are_at_most_4_fine_ones(rt: HostRuntime) {
    assert_eq!(rt; MAX_FACTOR, 4);
}
