use crate::shapes::{
    draw_spans, drawn, edge, pixel, point, rings, rows_of_cover, side, sides, three,
};
use geom::{Device, PictureSide};
use scanfill::{Cover, Spans};
use std::alloc::{AllocError, Global};
use strokes::{Line, Segment, Square};
use test_tables::{TableFault, check_rows, numbers};

// A line along parts, of a width.
fn line(alloc: Global, parts: &str, is_closed: bool, width: i64) -> Result<Line, AllocError> {
    let parts = rings(alloc, parts)?;
    Line::new(alloc, parts.as_slice(), is_closed, width.clamp(1, 32) as u8)
}

// Whether a line is closed, and its width, as `open 3`.
fn form(text: &str) -> Option<(bool, i64)> {
    let (ends, width) = text.split_once(' ')?;
    let width = width.parse::<i64>().ok()?;
    match ends {
        "open" => Some((false, width)),
        "closed" => Some((true, width)),
        _ => None,
    }
}

// The rows of a line and its pixels, its parts in sixteenths of a pixel, whether it is closed and its width,
// and the sides of a picture, all worked out from the rules by exact fractions. The lines go in all
// directions, each there and back, with ends on pixel centres and between them, of one vertex, of two equal
// ones and of none, and past the picture on each side.
const LINES: &str = "\
0-7 ###..... ###..... ####.... ..###... ...####. ....###. ....###. ........=24,24 88,88|open 3|8 8
1-5 ........ .####... .####... .####... .####... ........ ........ ........=40,40 40,40|open 4|8 8
0-1 #####. ...... ......=8,8 72,8|open 1|6 3
0-1 #####. ...... ......=72,8 8,8|open 1|6 3
0-4 .#. .#. .#. .#. ...=24,8 24,56|open 1|3 5
0-4 .#. .#. .#. .#. ...=24,56 24,8|open 1|3 5
0-3 ##.... ..##.. ....## ......=8,8 88,40|open 1|6 4
0-3 ##.... ..##.. ....## ......=88,40 8,8|open 1|6 4
0-4 ...### .##### ###... ##....=8,40 88,8|open 2|6 4
0-4 ...### .##### ###... ##....=88,8 8,40|open 2|6 4
0-6 #... #... .#.. .#.. ..#. ..#.=8,8 40,88|open 1|4 6
0-6 #... #... .#.. .#.. ..#. ..#.=40,88 8,8|open 1|4 6
0-6 ..## .### .##. ##.. ##.. ##..=40,8 8,88|open 2|4 6
0-6 ..## .### .##. ##.. ##.. ##..=8,88 40,8|open 2|4 6
0-5 ....# ...#. ..#.. .#... #....=8,72 72,8|open 1|5 5
0-5 ....# ...## ..##. .##.. ##...=72,8 8,72|open 2|5 5
2-4 ....... ....... .#####. .#####. ....... .......=24,40 72,40|open 2|7 6
0-5 ####### ####### ####### ####### ####### .......=24,40 72,40|open 5|7 6
0-7 .####. .####. .####. .####. .####. .####. .####.=40,24 40,72|open 4|6 7
0-6 .###.. .###.. .###.. .###.. .###.. .###.. ......=40,24 40,72|open 3|6 7
1-2 .... #### ....=0,16 48,16|open 1|4 3
0-3 #.... ##### ##### .....=5,21 61,30|open 2|5 4
0-5 ###. ###. ###. ###. ###.=21,5 30,61|open 3|4 5
1-2 .... .#.. ....=24,24|open 1|4 3
0-3 #### #### ####=24,24|closed 5|4 3
1-3 .... .##. .##. ....=24,24 24,24|open 2|4 4
- ... ...=|closed 3|3 2
0-4 ##### ....# ....# ....#=8,8 72,8 72,56|open 1|5 4
0-4 ##### .#..# ..### ....#=8,8 72,8 72,56|closed 1|5 4
0-1 ##### .....=8,8 72,8|closed 1|5 2
0-3 #.# #.# #.#=8,8 8,40/40,8 40,40|open 1|3 3
0-3 #.# #.# #.#=8,8 8,40/40,8 40,40|closed 1|3 3
0-4 ##... ###.. ..### ...##=-40,-24 56,40|open 2|5 4
1-2 .... #### ....=-100,24 300,24|open 1|4 3
0-3 ..#. ..#. ..#.=24,-900 40,900|open 1|4 3
- .... .... ....=-80,8 -24,40|open 3|4 3
- .... .... ....=200,8 200,90|open 5|4 3
- .... .... .... ....=-72,120 40,-120|open 3|4 4
0-4 #... .#.. ..#. ...#=-140737488355327,-140737488355327 140737488355327,140737488355327|open 1|4 4
1-3 .... #### #### ....=-140737488355327,24 140737488355327,40|open 2|4 4";

// The form of a line, and the sides of a picture.
type Drawing = (bool, i64, PictureSide, PictureSide);

// The parts of a row, and what is drawn of them.
fn drawing(row: &str) -> Option<(&str, Drawing)> {
    let (parts, form_of, size) = three(row)?;
    let (is_closed, line_width) = form(form_of)?;
    let (width, height) = sides(size)?;
    Some((parts, (is_closed, line_width, width, height)))
}

fn drawn_line(alloc: Global, row: &str) -> Result<String, AllocError> {
    let Some((parts, (is_closed, line_width, width, height))) = drawing(row) else {
        return format!(in alloc; "malformed");
    };
    let line = line(alloc, parts, is_closed, line_width)?;
    drawn(alloc, &line, width, height)
}

#[test]
fn lines_have_worked_pixels(rt: HostRuntime) -> Result<(), TableFault> {
    check_rows(rt.alloc(), LINES, '=', 40, drawn_line)
}

// The rows of a segment, worked by hand, its ends, its width, and the sides of a picture: upright ones on the
// picture, past it above and below, and beside it by just as much as they are wide and by more; level ones
// likewise; and long slanted ones that cross the picture, cut off a corner or pass by one.
const SEGMENTS: &str = "\
0-5=24 8 24 72|1|3 6
0-3=24 -40 24 40|1|3 6
3-5=24 56 24 300|1|3 5
-=24 -90 24 -10|2|3 5
-=24 100 24 300|2|3 5
0-5=-8 8 -8 72|2|3 6
-=-9 8 -9 72|2|3 6
0-5=55 8 55 72|2|3 6
-=56 8 56 72|2|3 6
-=24 9 24 23|5|3 3
1-2=8 24 72 24|1|5 4
0-3=8 24 72 24|3|5 4
1-2=-72 24 40 24|1|5 4
-=-72 24 -8 24|3|5 4
-=88 24 200 24|3|5 4
-=24 24 24 24|3|3 3
0-4=-100 -400 100 400|1|1 30
13-25=120 -80 -80 720|1|3 30
-=-40 -400 160 400|1|3 30
2-4=-400 -60 400 140|1|4 8
1-3=-400 140 400 -60|1|4 8
-=-400 -60 400 340|3|4 8
7-8=-400 -60 400 340|4|4 8
0-4=-140737488355327 -140737488355327 140737488355327 140737488355327|1|4 9";

// The segment of its ends and its width.
fn segment(ends: [i64; 4], width: i64) -> Segment {
    Segment::new(edge(ends), width.clamp(1, 32) as u8)
}

// The segment and the sides of a row.
fn segment_of(row: &str) -> Option<(Segment, PictureSide, PictureSide)> {
    let (ends, line_width, size) = three(row)?;
    let segment = segment(numbers(ends, ' ')?, line_width.parse::<i64>().ok()?);
    let (width, height) = sides(size)?;
    Some((segment, width, height))
}

fn rows_of_segment(alloc: Global, row: &str) -> Result<String, AllocError> {
    match segment_of(row) {
        Some((segment, width, height)) => rows_of_cover(alloc, &segment, width, height, true),
        None => format!(in alloc; "malformed"),
    }
}

#[test]
fn segments_have_worked_rows(rt: HostRuntime) -> Result<(), TableFault> {
    check_rows(rt.alloc(), SEGMENTS, '=', 24, rows_of_segment)
}

// The rows of a square and its pixels, its pixel and its size, and the sides of a picture.
const SQUARES: &str = "\
1-2 .... .#.. ....=1 1 1|4 3
1-3 .... .##. .##. ....=1 1 2|4 4
0-3 ###. ###. ###. ....=1 1 3|4 4
1-4 .... ..## ..## ..##=3 2 4|4 4
0-2 ##. ##. ...=0 0 2|3 3
0-3 ###. ###. ###. ....=0 0 5|4 4
0-1 #.. ... ...=-1 -1 3|3 3
0-3 #.. #.. #..=-2 1 4|3 3
1-3 ... #.. #..=-1 1 2|3 3
0-3 ...# ...# ...#=4 1 3|4 3
0-3 ...# ...# ...#=4 1 4|4 3
- .... .... ....=5 1 3|4 3
0-1 ##### ..... .....=2 -2 5|5 3
- .... .... ....=2 3 2|4 3
- .... .... ....=2 4 3|4 3
0-2 ### ###=60 -60 256|3 2
0-2 #. #.=-128 0 256|2 2
0-2 .## .##=128 0 256|3 2
- ... ...=17592186044415 0 3|3 2
- ... ...=1 -17592186044415 256|3 2";

// The square of its pixel and its size.
fn square([i, j, size]: [i64; 3]) -> Square {
    Square::new(pixel([i, j]), size.clamp(1, 256) as u16)
}

// The square and the sides of a row.
fn square_of(row: &str) -> Option<(Square, PictureSide, PictureSide)> {
    let (at, size) = row.split_once('|')?;
    let (width, height) = sides(size)?;
    Some((square(numbers(at, ' ')?), width, height))
}

fn drawn_square(alloc: Global, row: &str) -> Result<String, AllocError> {
    match square_of(row) {
        Some((square, width, height)) => drawn(alloc, &square, width, height),
        None => format!(in alloc; "malformed"),
    }
}

#[test]
fn squares_have_worked_pixels(rt: HostRuntime) -> Result<(), TableFault> {
    check_rows(rt.alloc(), SQUARES, '=', 20, drawn_square)
}

// The parts of a line that goes up and down over the height of the widest picture as often as a feature may
// have vertices: 32 times in each column of 2,048.
fn longest_parts(alloc: Global) -> Result<Vec<Vec<Device>>, AllocError> {
    let mut part = Vec::new(alloc);
    for number in 0..32_768_i64 {
        part.push(point([number, -100]))?;
        part.push(point([number, 40_000]))?;
    }
    let mut parts = Vec::new(alloc);
    parts.push(part)?;
    Ok(parts)
}

// The line along them.
fn longest_line(alloc: Global, width: i64) -> Result<Line, AllocError> {
    let parts = longest_parts(alloc)?;
    Line::new(alloc, parts.as_slice(), false, width.clamp(1, 32) as u8)
}

// The last row of the widest picture, of that line.
fn last_row(alloc: Global, width: &str) -> Result<String, AllocError> {
    let Ok(width) = width.parse::<i64>() else {
        return String::from_str(alloc, "malformed");
    };
    let line = longest_line(alloc, width)?;
    let mut spans = Spans::new(alloc);
    line.row(2_047, side(2_048), &mut spans)?;
    let mut text = String::new(alloc);
    draw_spans(&mut text, &spans)?;
    Ok(text)
}

// The spans of that row, and the width of the line.
const LONGEST: &str = "\
0-2048=1
0-2048=32";

#[test]
fn longest_lines_are_drawn(rt: HostRuntime) -> Result<(), TableFault> {
    check_rows(rt.alloc(), LONGEST, '=', 2, last_row)
}

// Draws the rows 4, 3 and 5 of a square, one after another.
fn draw_three(out: &mut String, spans: &mut Spans) -> Result<(), AllocError> {
    let square = square([5, 3, 2]);
    for row in [4, 3, 5] {
        square.row(row, side(9), spans)?;
        draw_spans(out, spans)?;
        out.push(' ')?;
    }
    Ok(())
}

fn three_rows(alloc: Global, _of: &str) -> Result<String, AllocError> {
    let mut text = String::new(alloc);
    draw_three(&mut text, &mut Spans::new(alloc))?;
    Ok(text)
}

// What a row had before is gone, also where nothing is covered.
#[test]
fn rows_forget_the_row_before(rt: HostRuntime) -> Result<(), TableFault> {
    check_rows(
        rt.alloc(),
        "5-7 5-7 - =a square of two rows",
        '=',
        1,
        three_rows,
    )
}

// The pixels of each segment of a line and then of each square round a vertex, in their order, with the form
// of the line and the sides of a picture.
const MADE: &str = "\
0-5 #..... ##.... ###... .##... ..#... ...... ......;0-3 ##.... ##.... ##.... ...... ...... ...... ......;2-5 ...... ...... .###.. .###.. .###.. ...... ......;4-7 ...... ...... ...... ...... ...### ...### ...###;=8,24 40,56/72,88|open 3|6 7
1-4 .... #... .#.. ..#. ....;1-4 .... ..#. ..#. ..#. ....;1-2 .... ###. .... .... ....;1-2 .... #... .... .... ....;3-4 .... .... .... ..#. ....;1-2 .... ..#. .... .... ....;=8,24 40,56 40,24|closed 1|4 5";

// Adds the pixels of each cover.
fn draw_each<C: Cover>(
    out: &mut String,
    covers: &[C],
    width: PictureSide,
    height: PictureSide,
) -> Result<(), AllocError> {
    for cover in covers {
        let pixels = drawn(*out.allocator(), cover, width, height)?;
        out.push_str(pixels.as_str())?;
        out.push(';')?;
    }
    Ok(())
}

fn made_of(alloc: Global, row: &str) -> Result<String, AllocError> {
    let Some((parts, (is_closed, line_width, width, height))) = drawing(row) else {
        return format!(in alloc; "malformed");
    };
    let line = line(alloc, parts, is_closed, line_width)?;
    let mut text = String::new(alloc);
    draw_each(&mut text, line.segments(), width, height)?;
    draw_each(&mut text, line.squares(), width, height)?;
    Ok(text)
}

#[test]
fn lines_are_made_of_segments_and_squares(rt: HostRuntime) -> Result<(), TableFault> {
    check_rows(rt.alloc(), MADE, '=', 2, made_of)
}
