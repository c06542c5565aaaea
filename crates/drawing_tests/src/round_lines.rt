use crate::shapes::{drawn, rings, sides, three};
use std::alloc::{AllocError, Global};
use strokes::RoundLine;
use test_tables::{TableFault, check_rows};

// A round line along parts: whether it is closed, and its width, as `open 3`.
fn line(alloc: Global, parts: &str, text: &str) -> Result<RoundLine, AllocError> {
    let parts = rings(alloc, parts)?;
    let (ends, width) = match text.split_once(' ') {
        Some(form) => form,
        None => ("open", "1"),
    };
    let width = match width.parse::<i64>() {
        Ok(width) => width.clamp(1, 128) as u8,
        Err(_) => 1,
    };
    RoundLine::new(alloc, parts.as_slice(), ends == "closed", width)
}

// The rows of a round line and its pixels, its parts in sixteenths of a pixel, whether it is closed and its width, and the
// sides of a picture, all worked out by exact fractions from the nearest point of each segment. Centres lie just on the border
// in many; some lines are much larger than the picture, or pass by it.
const LINES: &str = "\
0-7 ###..... ####.... #####... .#####.. ..#####. ...####. ....###. ........=24,24 88,88|open 3|8 8
0-8 ###..... ####.... #####... .#####.. ..#####. ...##### ....###. .....#..=24,24 88,88|open 4|8 8
0-8 ###..... ####.... #####... .#####.. ..#####. ...##### ....###. .....#..=88,88 24,24|open 4|8 8
0-5 ..#... .###.. #####. .###.. ..#... ......=40,40|open 4|6 6
0-5 .###.. #####. #####. #####. .###.. ......=40,40|open 5|6 6
0-4 .##.. ####. ####. .##.. .....=32,32|open 4|5 5
0-5 ..#... .###.. #####. .###.. ..#... ......=40,40 40,40|open 4|6 6
0-5 ..#... .###.. #####. .###.. ..#... ......=40,40|closed 4|6 6
0-1 #####. ...... ......=8,8 72,8|open 1|6 3
0-2 #####. #####. ......=8,16 72,16|open 1|6 3
1-2 ...... #####. ......=8,17 72,17|open 1|6 3
0-4 .#. .#. .#. .#. ...=24,8 24,56|open 1|3 5
0-5 ###. ###. ###. ###. .#..=24,8 24,56|open 2|4 5
0-3 ##.... ..##.. ....## ......=8,8 88,40|open 1|6 4
0-3 ##.... ..##.. ....## ......=88,40 8,8|open 1|6 4
0-4 .###### ####### #####.. ##..... .......=8,40 88,8|open 3|7 5
0-7 ##... ##... ##... .##.. .##.. .###. ..#..=8,8 40,88|open 2|5 7
0-6 #####. #####. ###### #####. #####. ..#...=40,40 41,41|open 6|6 6
0-6 ######. ####### ####### ####### ######. #####..=30,40 52,43|open 7|7 6
0-5 ###### ###### ...### ...### ...###=8,8 72,8 72,56|open 3|6 5
0-5 ###### ###### .##### ...### ....#.=8,8 72,8 72,56|closed 2|6 5
0-5 ##.... ##.... ...### ...### ...###=8,8/72,56|open 3|6 5
0-3 #.# #.# #.#=8,8 8,40/40,8 40,40|open 1|3 3
0-4 ###.. ##### .#### ..###=-40,-24 56,40|open 3|5 4
0-3 #### #### ####=-100,24 300,24|open 2|4 3
0-3 .##. .##. .##.=24,-900 40,900|open 2|4 3
- .... .... ....=-80,8 -24,40|open 3|4 3
0-3 .... .... #...=-80,8 -12,40|open 3|4 3
- .... .... ....=200,8 200,90|open 5|4 3
0-4 .... .... .... ....=-72,120 40,-120|open 3|4 4
0-2 ### ###=24,24 40,200|open 128|3 2
0-4 #... .#.. ..#. ...#=-140737488355327,-140737488355327 140737488355327,140737488355327|open 1|4 4
0-4 .... #### #### ####=-140737488355327,24 140737488355327,40|open 3|4 4
- ... ...=|closed 3|3 2
0-4 ##.. #... .... ....=-140737488355327,140737488355327 140737488355327,-140737488355300|open 2|4 4";

fn drawn_line(alloc: Global, row: &str) -> Result<String, AllocError> {
    let Some((parts, form, size)) = three(row) else {
        return format!(in alloc; "malformed");
    };
    let Some((width, height)) = sides(size) else {
        return format!(in alloc; "malformed");
    };
    drawn(alloc, &line(alloc, parts, form)?, width, height)
}

#[test]
fn round_lines_have_worked_pixels(rt: HostRuntime) -> Result<(), TableFault> {
    check_rows(rt.alloc(), LINES, '=', 35, drawn_line)
}
