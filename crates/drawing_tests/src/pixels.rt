ghost use Rattle.std.specs.Prelude.{◌^◌};
ghost use Rattle.geom.specs.Range.{IsBelow};

use crate::shapes::{pixels, side};
use geom::{Device, PictureSide, PxBox};
use std::alloc::{AllocError, Global};
use test_tables::{TableFault, check_rows, numbers};

// The column and the row of the pixel that a point 40 sixteenths down lies in, and its x in sixteenths.
const COLUMNS: &str = "\
0 2=0
0 2=15
1 2=16
-1 2=-1
-1 2=-16
-2 2=-17
# the centre of a column, and its last sixteenth
1023 2=16376
2047 2=32767";

fn pixel(alloc: Global, row: &str) -> Result<String, AllocError> {
    let Ok(x) = row.parse::<i32>() else {
        return format!(in alloc; "malformed");
    };
    let pixel = Device::new(i64::from(x), 40).pixel();
    format!(in alloc; "{} {}", pixel.i(), pixel.j())
}

#[test]
fn points_lie_in_the_pixels_below_them(rt: HostRuntime) -> Result<(), TableFault> {
    check_rows(rt.alloc(), COLUMNS, '=', 8, pixel)
}

#[test]
fn pixel_centres_lie_in_the_middle(rt: HostRuntime) {
    let centre = Device::pixel_centre(3, 0);
    assert_eq!(rt; [centre.x(), centre.y()], [56, 8]);
}

// The pixels of a side that is made of so many, 0 where there is none, and of one by its last pixel.
#[test]
fn sides_have_1_to_2048_pixels(rt: HostRuntime) {
    let of = |pixels: u16| PictureSide::new(pixels).map_or(0, PictureSide::pixels);
    let last = PictureSide::with_last(2_047).pixels();
    assert_eq!(rt;
        [
            of(0),
            of(1),
            of(2),
            of(2_047),
            of(2_048),
            of(2_049),
            of(65_535),
            last
        ],
        [0, 1, 2, 2_047, 2_048, 0, 0, 2_048]
    );
}

// Whether two boxes share a pixel, tested from each, and their sides. The greatest size of a side that may grow
// is 1,099,511,627,775.
const MEETINGS: &str = "\
true true=0 0 3 4|2 3 5 6
# touching on the right, below, left and above
false false=0 0 3 4|3 0 5 2
false false=0 0 3 4|0 4 2 6
false false=0 0 3 4|-2 1 0 3
false false=0 0 3 4|1 -2 2 0
# one within the other, and a cross
true true=-9 -8 9 8|-1 -2 1 2
true true=-9 -1 9 1|-1 -9 1 9
# the columns overlap, the rows don't
false false=0 0 7 2|1 5 6 9
# empty boxes within another, by their columns or their rows
false false=4 4 4 6|0 0 9 9
false false=4 6 5 5|0 0 9 9
true true=-1099511627775 -1099511627775 1099511627775 1099511627775|1099511627774 -1099511627775 1099511627775 -1099511627774";

// Whether the boxes of a row meet.
fn meeting(row: &str) -> Option<(bool, bool)> {
    let (a, b) = row.split_once('|')?;
    let (a, b) = (pixels(numbers(a, ' ')?), pixels(numbers(b, ' ')?));
    Some((a.meets(b), b.meets(a)))
}

fn meet(alloc: Global, row: &str) -> Result<String, AllocError> {
    match meeting(row) {
        Some((one, other)) => format!(in alloc; "{one} {other}"),
        None => format!(in alloc; "malformed"),
    }
}

#[test]
fn boxes_meet_where_they_share_a_pixel(rt: HostRuntime) -> Result<(), TableFault> {
    check_rows(rt.alloc(), MEETINGS, '=', 11, meet)
}

// The sides of a box that has grown, its sides before, and by how many pixels it grew.
const GROWN: &str = "\
-8 4 23 34=-5 7 20 31|3
-1099511627775 -1099511627774 1099511627774 1099511627775=-1099511627775 -1099511627774 1099511627774 1099511627775|0
-1103806595070 -1103806595069 1103806595069 1103806595070=-1099511627775 -1099511627774 1099511627774 1099511627775|4294967295";

// A side that may grow. That of a row is within the limits.
fn limited(side: i64) -> i64
    ensures { IsBelow (2 ^ 40) result }
{
    side.clamp(-1_099_511_627_775, 1_099_511_627_775)
}

// The box of a row, grown.
fn growing(row: &str) -> Option<PxBox> {
    let (sides, by) = row.split_once('|')?;
    let [left, top, right, bottom] = numbers::<4>(sides, ' ')?;
    let (left, top) = (limited(left), limited(top));
    let (right, bottom) = (limited(right), limited(bottom));
    Some(PxBox::new(left, top, right, bottom).grown(by.parse::<u32>().ok()?))
}

fn grown(alloc: Global, row: &str) -> Result<String, AllocError> {
    let Some(area) = growing(row) else {
        return format!(in alloc; "malformed");
    };
    format!(in alloc;
        "{} {} {} {}",
        area.left(),
        area.top(),
        area.right(),
        area.bottom()
    )
}

#[test]
fn boxes_grow_on_each_side(rt: HostRuntime) -> Result<(), TableFault> {
    check_rows(rt.alloc(), GROWN, '=', 3, grown)
}

// Whether a picture of 8 by 5 pixels has a box inside, and the sides of the box.
const INSIDES: &str = "\
true=1 2 7 4
true=0 0 8 5
false=-1 0 8 5
false=0 -1 8 5
false=0 0 9 5
false=0 0 8 6
# empty boxes, inside and off the picture
true=8 5 0 0
true=8 5 8 5
false=9 0 8 5
false=0 6 8 5
false=3 2 3 -1";

fn inside(alloc: Global, row: &str) -> Result<String, AllocError> {
    match numbers(row, ' ') {
        Some(sides) => format!(in alloc; "{}", pixels(sides).inside(8, 5)),
        None => format!(in alloc; "malformed"),
    }
}

#[test]
fn sides_lie_within_the_picture(rt: HostRuntime) -> Result<(), TableFault> {
    check_rows(rt.alloc(), INSIDES, '=', 11, inside)
}
