use crate::painted_maps::drawn_row;
use std::alloc::{AllocError, Global};
use test_tables::{TableFault, check_rows};

// Polygons, and the pixels that they cover, in the form of `drawn_row`.
const POLYGONS: &str = "\
.... .##. .##. ....;.;0;polygon #/- none;10,10 30,10 30,30 10,30
# edges through the pixel centres of a column: one on the left covers them, one on the right doesn't
.... .##. .##. ....;.;0;polygon #/- none;15,10 30,10 30,30 15,30
.... #... #... ....;.;0;polygon #/- none;0,10 15,10 15,30 0,30
# a hole
#### #..# #..# ####;.;0;polygon #/- none;0,0 40,0 40,40 0,40/10,10 30,10 30,30 10,30
# a ring that crosses itself
.... ..#. ..#. ....;.;0;polygon #/- none;10,10 30,30 30,10 10,30
# far larger than the picture, and left of it
#### #### #### ####;.;0;polygon #/- none;-2000,-2000 2000,-2000 2000,2000 -2000,2000
.... .... .... ....;.;0;polygon #/- none;-30,10 -10,10 -10,30 -30,30
# from pixel centre to pixel centre: the edges at the top and on the left cover, the others don't
.... ##.. ##.. ....;.;0;polygon #/- none;5,5 25,5 25,25 5,25
# The left and the right corner are at the height of the second row's pixel centres. The third row is crossed at 12.8 and 51.2 sixteenths, the last at 25.6 and 38.4, between two pixel centres.
.##. #### .##. ....;.;0;polygon #/- none;0,25 20,0 40,25 20,40
# a tip at a pixel centre covers nothing, nor does a base at the height of one
.... .... .#.. ....;.;0;polygon #/- none;15,25 5,5 25,5
# a step whose horizontal edge is at the height of the second row's pixel centres
##.. #### #### ####;.;0;polygon #/- none;0,40 20,40 20,25 40,25 40,0 0,0
# two rings that share an edge through the pixel centres of the second column
.... #### #### ....;.;0;polygon #/- none;0,10 15,10 15,30 0,30/15,10 40,10 40,30 15,30
# a ring in each corner
#..# .... .... #..#;.;0;polygon #/- none;0,0 10,0 10,10 0,10/30,0 40,0 40,10 30,10/0,30 10,30 10,40 0,40/30,30 40,30 40,40 30,40
# a ring of one vertex, one of two, and one of none
.... .... .... ....;.;0;polygon #/- none;15,15/0,0 40,40/
# no ring
.... .... .... ....;.;0;polygon #/- none;-";

#[test]
fn polygons_cover_worked_pixels(rt: HostRuntime) -> Result<(), TableFault> {
    check_rows(rt.alloc(), POLYGONS, ';', 15, drawn_row)
}

// Adds the 82 vertices of a chain that goes to and fro between two coordinates on an axis, a tenth of a degree further
// along the other axis each time: from 0 to 4 degrees.
fn add_chain(text: &mut String, axis: &str, ends: &str) -> Result<(), AllocError> {
    let (from, to) = ends.split_once(' ').unwrap_or(("", ""));
    for k in 0..41u8 {
        if axis == "x" {
            write!(text, "{from},{k} {to},{k} ")?;
        } else {
            write!(text, "{k},{from} {k},{to} ")?;
        }
    }
    Ok(())
}

// The picture of a ring: the axis of its chain and the two coordinates, and the vertices after it.
fn drawn_chain(alloc: Global, fields: &str) -> Result<String, AllocError> {
    let (chain, rest) = fields.split_once(';').unwrap_or(("", ""));
    let (axis, ends) = chain.split_once(' ').unwrap_or(("", ""));
    let mut row = String::from_str(alloc, ".;0;polygon #/- none;")?;
    add_chain(&mut row, axis, ends)?;
    row.push_str(rest)?;
    drawn_row(alloc, row.as_str())
}

// The chain lies left of the picture, right of it, above it, below it, and between the heights of two rows of pixel
// centres. Such a chain counts by where it begins and ends alone. The last ring has another edge on its left.
const CHAINS: &str = "\
##.. ##.. ##.. ##..;x -30 -10;20,40 20,0
..## ..## ..## ..##;x 50 70;20,40 20,0
#### #### .... ....;y 45 60;40,20 0,20
.... .... #### ####;y -60 -45;40,20 0,20
#### #### .... ....;y 16 24;40,40 0,40
.... .... #### ####;y 16 24;40,0 0,0
.... ##.. ##.. ....;x -30 -10;-10,30 20,30 20,10 -30,10";

#[test]
fn rings_of_many_edges_cover_worked_pixels(rt: HostRuntime) -> Result<(), TableFault> {
    check_rows(rt.alloc(), CHAINS, ';', 7, drawn_chain)
}

// All of the picture, and the square within it.
const LAYERS: &str = "\
#### #oo# #oo# ####;.;0 1;polygon #/- none;0,0 40,0 40,40 0,40
#### #### #### ####;.;1 0;polygon #/- none;0,0 40,0 40,40 0,40
#### #oo# #oo# ####;.;1 0 1;polygon #/- none;0,0 40,0 40,40 0,40
# a layer that is chosen again covers at its last mention
..## .o## .oo. ....;.;0 1 0;polygon #/- none;20,20 40,20 40,40 20,40
..## .oo# .oo. ....;.;0 0 1;polygon #/- none;20,20 40,20 40,40 20,40";

#[test]
fn later_layers_lie_over_earlier_ones(rt: HostRuntime) -> Result<(), TableFault> {
    check_rows(rt.alloc(), LAYERS, ';', 5, drawn_row)
}

const BACKGROUNDS: &str = "\
#### #### #### ####;#;none;polygon #/- none;-
#### #oo# #oo# ####;#;1;polygon #/- none;-
____ _oo_ _oo_ ____;_;1;polygon #/- none;-
__## _o## _oo_ ____;_;1 0;polygon #/- none;20,20 40,20 40,40 20,40";

#[test]
fn background_is_seen_where_nothing_is_painted(rt: HostRuntime) -> Result<(), TableFault> {
    check_rows(rt.alloc(), BACKGROUNDS, ';', 4, drawn_row)
}

// The inner square in some styles.
const STYLES: &str = "\
.... .oo. .oo. ....;.;0;polygon #/o none;10,10 30,10 30,30 10,30
.... .##. .##. ....;.;0;polygon -/# none;10,10 30,10 30,30 10,30
.... .... .... ....;.;0;polygon -/- none;10,10 30,10 30,30 10,30
# a fill without an outline, an outline without a fill, and an outline above its fill
.... .##. .##. ....;.;0;polygon #-/- none;10,10 30,10 30,30 10,30
.... .ooo .o.o .ooo;.;0;polygon -o/- none;10,10 30,10 30,30 10,30
.... .ooo .o#o .ooo;.;0;polygon #o/- none;10,10 30,10 30,30 10,30
# a second style above the outline of the first
.... .##o .##o .ooo;.;0;polygon #o/# none;10,10 30,10 30,30 10,30
# the outlines of a ring of two vertices and of one of a single vertex
###. .... .... ...#;.;0;polygon -#/- none;5,35 25,35/35,5
# the size and the symbol are those of points
.... .##. .##. ....;.;0;polygon #-140/- none;10,10 30,10 30,30 10,30";

#[test]
fn styles_paint_in_order(rt: HostRuntime) -> Result<(), TableFault> {
    check_rows(rt.alloc(), STYLES, ';', 9, drawn_row)
}

// Lines along the parts, which stay open.
const LINES: &str = "\
.... .### ...# .###;.;0;line #/- none;10,10 30,10 30,30 10,30
# in the colour, whatever the outline's
.... .### ...# .###;.;0;line #o/- none;10,10 30,10 30,30 10,30
.... .... .... ....;.;0;line -o/- none;10,10 30,10 30,30 10,30
# a width of 3
###..... ###..... ####.... ..###... ...####. ....###. ....###. ........;..;0;line #-3/- none;15,65 55,25
# one vertex twice, in a width of 4
........ .####... .####... .####... .####... ........ ........ ........;..;0;line #-4/- none;25,55 25,55
# a second style above the first, and two parts of one vertex each
o#o# #### .... ....;.;0;line #-3/o none;5,35/25,35
# two parts, which nothing joins
##.. .... .... ##..;.;0;line #/- none;5,35 15,35/5,5 15,5";

#[test]
fn lines_cover_worked_pixels(rt: HostRuntime) -> Result<(), TableFault> {
    check_rows(rt.alloc(), LINES, ';', 7, drawn_row)
}

// Points: squares of a size, pixmaps, discs and rings.
const POINTS: &str = "\
.... .#.# .... .#.#;.;0;point #/- none;10,10 30,10 30,30 10,30
.... .... .... ....;.;0;point -o/- none;10,10 30,10 30,30 10,30
# odd and even sizes
###. #oo. #oo. ....;.;0;point #--3/o--2 none;15,25
# the second style above the first at all points
#### #oo# #### ....;.;0;point #--3/o none;15,25 25,25
#### #oo# #### ....;.;0;point #--3/o none;15,25/25,25
# partly off the picture
.... #... #... #...;.;0;point #--3/- none;-5,20
# the pixmaps of two symbols, whatever the colour and the size
#o.. .#.. .... ....;.;0;point ----0/- none;15,25
.o.. .... .#.. ....;.;0;point #--31/- none;15,25
#... .... .... ....;.;0;point ----0/- none;5,35
# what lies below is seen through a pixel of 255 0 255
#o.. .#.. .#.. ....;.;0;point ----0/----1 none;15,25
# a disc round a corner of pixels, one round a pixel centre, and a ring over its disc
.... .##. .##. ....;.;0;point #--22/- none;20,20
..#. .### ..#. ....;.;0;point #--22/- none;25,25
.oo. o##o o##o .oo.;.;0;point #o142/- none;20,20";

#[test]
fn points_cover_worked_pixels(rt: HostRuntime) -> Result<(), TableFault> {
    check_rows(rt.alloc(), POINTS, ';', 13, drawn_row)
}

// Bounds on the scale denominator, which is 111,319,491, of the class and of the layer.
const SCALES: &str = "\
# a layer or a class is visible from its first bound on, and before its second
.... .##. .##. ....;.;0;polygon #/- -..-,111319491..-;10,10 30,10 30,30 10,30
.... .... .... ....;.;0;polygon #/- -..-,111319491.000001..-;10,10 30,10 30,30 10,30
.... .... .... ....;.;0;polygon #/- -..-,-..111319491;10,10 30,10 30,30 10,30
.... .##. .##. ....;.;0;polygon #/- -..-,-..111319491.000001;10,10 30,10 30,30 10,30
.... .##. .##. ....;.;0;polygon #/- 111319491..-,-..-;10,10 30,10 30,30 10,30
.... .... .... ....;.;0;polygon #/- 111319491.000001..-,-..-;10,10 30,10 30,30 10,30
.... .... .... ....;.;0;polygon #/- -..111319491,-..-;10,10 30,10 30,30 10,30
.... .##. .##. ....;.;0;polygon #/- -..111319491.000001,-..-;10,10 30,10 30,30 10,30
# both bounds
.... .##. .##. ....;.;0;polygon #/- 111319490..111319492,111319489..111319493;10,10 30,10 30,30 10,30
.... .... .... ....;.;0;polygon #/- -..-,111319492..111319490;10,10 30,10 30,30 10,30
# a second bound of 0 or less is none, and a first one below 0 is reached
.... .##. .##. ....;.;0;polygon #/- -..0,-..-0.000007;10,10 30,10 30,30 10,30
.... .##. .##. ....;.;0;polygon #/- -1000000000000..-,-5..-;10,10 30,10 30,30 10,30
.... .... .... ....;.;0;polygon #/- -..-,1000000000000..-;10,10 30,10 30,30 10,30
# the smallest second bound that counts
.... .... .... ....;.;0;polygon #/- -..-,-..0.000001;10,10 30,10 30,30 10,30";

#[test]
fn layers_and_classes_are_visible_between_their_bounds(rt: HostRuntime) -> Result<(), TableFault> {
    check_rows(rt.alloc(), SCALES, ';', 14, drawn_row)
}
