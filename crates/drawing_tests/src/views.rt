use crate::shapes::side;
use geom::{Micro, World, WorldBox};
use std::alloc::{AllocError, Global};
use test_maps::place;
use test_tables::{TableFault, check_rows, numbers};
use viewport::{Heights, MAX_MARGIN, Projection, View};

// Four degrees by four degrees in four pixels by four pixels.
fn square() -> View {
    let low = Micro::new(0);
    let high = Micro::new(4_000_000);
    View::new(
        Heights::Latitudes,
        WorldBox::new(low, low, high, high),
        side(4),
        side(4),
    )
}

// Three degrees by six in four pixels by two: a pixel is three quarters of a degree wide.
fn oblong() -> View {
    let low = Micro::new(0);
    let east = Micro::new(3_000_000);
    let north = Micro::new(6_000_000);
    View::new(
        Heights::Latitudes,
        WorldBox::new(low, low, east, north),
        side(4),
        side(2),
    )
}

// The smallest area in the largest picture.
fn dot() -> View {
    let low = Micro::new(0);
    let high = Micro::new(1);
    View::new(
        Heights::Latitudes,
        WorldBox::new(low, low, high, high),
        side(2_048),
        side(2_048),
    )
}

// The greatest area in a picture of one row, three pixels wide.
fn world() -> View {
    let low = Micro::new(-1_000_000_000);
    let high = Micro::new(1_000_000_000);
    View::new(
        Heights::Latitudes,
        WorldBox::new(low, low, high, high),
        side(3),
        side(1),
    )
}

// The same area, 2,048 pixels wide.
fn wide() -> View {
    let low = Micro::new(-1_000_000_000);
    let high = Micro::new(1_000_000_000);
    View::new(
        Heights::Latitudes,
        WorldBox::new(low, low, high, high),
        side(2_048),
        side(1),
    )
}

// The smallest area in the world's south-eastern corner, one pixel wide and 2,048 high.
fn corner() -> View {
    let (west, east) = (Micro::new(999_999_999), Micro::new(1_000_000_000));
    let (south, north) = (Micro::new(-1_000_000_000), Micro::new(-999_999_999));
    View::new(
        Heights::Latitudes,
        WorldBox::new(west, south, east, north),
        side(1),
        side(2_048),
    )
}

// Three millionths of a degree each way, by one pixel and by 2,048.
fn thirds() -> View {
    let low = Micro::new(0);
    let high = Micro::new(3);
    View::new(
        Heights::Latitudes,
        WorldBox::new(low, low, high, high),
        side(1),
        side(2_048),
    )
}

// The view of a name.
pub(crate) fn view(name: &str) -> Option<View> {
    match name {
        "square" => Some(square()),
        "oblong" => Some(oblong()),
        "dot" => Some(dot()),
        "world" => Some(world()),
        "wide" => Some(wide()),
        "corner" => Some(corner()),
        "thirds" => Some(thirds()),
        _ => None,
    }
}

// The device point of a place and its pixel, worked by hand, a view, and the place.
const PLACES: &str = "\
# in the square 16 sixteenths are a degree
16 48 1 3=square 1000000 1000000
64 64 4 4=square 4000000 0
0 0 0 0=square 0 4000000
24 48 1 3=square 1500000 1000000
# a millionth of a degree off the upper left corner, and inside of it
-1 -1 -1 -1=square -1 4000001
0 0 0 0=square 1 3999999
-64 -16 -4 -1=square -4000000 5000000
# in the oblong a degree is 64/3 sixteenths to the right and 32/6 down, and the top is 6
21 5 1 0=oblong 1000000 5000000
-22 -6 -2 -1=oblong -1000000 7000000
42 26 2 1=oblong 2000000 1000000
64 32 4 2=oblong 3000000 0
# on the dot a millionth of a degree is 32,768 sixteenths
-32768000000000 -32767999967232 -2048000000000 -2047999997952=dot -1000000000 1000000000
32768000000000 32768000032768 2048000000000 2048000002048=dot 1000000000 -1000000000
# of the world 2,000,000,000 millionths are 48 sixteenths to the right and 16 down
0 16 0 1=world -1000000000 -1000000000
48 0 3 0=world 1000000000 1000000000
24 8 1 0=world 0 0
24 7 1 0=world 1 1
23 8 1 0=world -1 -1
# and 32,768 to the right where it is wide: one for 61,035 millionths and some
16384 8 1024 0=wide 0 0
16383 8 1023 0=wide -1 -1
16384 7 1024 0=wide 61035 61035
16385 7 1024 0=wide 61036 61036
32768 16 2048 1=wide 1000000000 -1000000000
# in the corner a millionth is 16 to the right and 32,768 down
16 32768 1 2048=corner 1000000000 -1000000000
0 0 0 0=corner 999999999 -999999999
-31999999984 -65535999967232 -1999999999 -4095999997952=corner -1000000000 1000000000
# a millionth of three is 16/3 to the right and 32768/3 down, and the top is 3
5 10922 0 682=thirds 1 2
10 21845 0 1365=thirds 2 1
16 32768 1 2048=thirds 3 0
21 43690 1 2730=thirds 4 -1
-6 -10923 -1 -683=thirds -1 4
-11 -21846 -1 -1366=thirds -2 5
-16 -32768 -1 -2048=thirds -3 6";

// The view and the place of a row.
fn view_and_place(row: &str) -> Option<(View, World)> {
    let (name, at) = row.split_once(' ')?;
    Some((view(name)?, place(numbers(at, ' ')?)))
}

fn point(alloc: Global, row: &str) -> Result<String, AllocError> {
    let Some((view, place)) = view_and_place(row) else {
        return format!(in alloc; "malformed");
    };
    let (point, pixel) = (view.device(place), view.pixel(place));
    let (x, y, i, j) = (point.x(), point.y(), pixel.i(), pixel.j());
    format!(in alloc; "{x} {y} {i} {j}")
}

#[test]
fn places_lie_at_worked_points(rt: HostRuntime) -> Result<(), TableFault> {
    check_rows(rt.alloc(), PLACES, '=', 33, point)
}

fn projected(alloc: Global, row: &str) -> Result<String, AllocError> {
    let Some((view, place)) = view_and_place(row) else {
        return format!(in alloc; "malformed");
    };
    let projection = Projection::new(view);
    let (point, pixel) = (projection.device(place), projection.pixel(place));
    let (x, y, i, j) = (point.x(), point.y(), pixel.i(), pixel.j());
    format!(in alloc; "{x} {y} {i} {j}")
}

#[test]
fn projections_place_where_views_do(rt: HostRuntime) -> Result<(), TableFault> {
    check_rows(rt.alloc(), PLACES, '=', 33, projected)
}

// The west, south, east and north side of a window, worked by hand, its view and its margin. A pixel of the
// oblong is 750,000 by 3,000,000 millionths, one of the dot a 2,048th of a millionth, and one of the world
// 666,666,666 and two thirds by 2,000,000,000.
const WINDOWS: &str = "\
0 0 4000000 4000000=square 0
-3000000 -3000000 7000000 7000000=square 3
-750000 -3000000 3750000 9000000=oblong 1
-3750000 -15000000 6750000 21000000=oblong 5
0 0 1 1=dot 0
-1 -1 2 2=dot 1
-1 -1 2 2=dot 2048
-2 -2 3 3=dot 2049
-2 -2 3 3=dot 4096
-1666666667 -3000000000 1666666667 3000000000=world 1
-3000000000 -7000000000 3000000000 7000000000=world 3
-2731666666667 -8193000000000 2731666666667 8193000000000=world 4096";

// The window of a row.
fn window_of(row: &str) -> Option<WorldBox> {
    let (name, margin) = row.split_once(' ')?;
    Some(view(name)?.window(margin.parse::<u16>().ok()?.min(MAX_MARGIN)))
}

fn window(alloc: Global, row: &str) -> Result<String, AllocError> {
    let Some(window) = window_of(row) else {
        return format!(in alloc; "malformed");
    };
    let (west, south) = (window.minx().millionths(), window.miny().millionths());
    let (east, north) = (window.maxx().millionths(), window.maxy().millionths());
    format!(in alloc; "{west} {south} {east} {north}")
}

#[test]
fn windows_have_worked_sides(rt: HostRuntime) -> Result<(), TableFault> {
    check_rows(rt.alloc(), WINDOWS, '=', 12, window)
}

#[test]
fn margins_have_at_most_4096_pixels(rt: HostRuntime) {
    assert_eq!(rt; MAX_MARGIN, 4_096);
}
