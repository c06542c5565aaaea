ghost use Rattle.std.specs.Prelude.{◌≤◌, IfSome};
ghost use Rattle.mapdefs.specs.declared.limits.TheConstants.{MAX_FINE_SQUARE};

use crate::shapes::{point, sides, three};
use scanfill::Span;
use std::alloc::{AllocError, Global};
use strokes::Disc;
use test_tables::{TableFault, check_rows, numbers};

// A size, and the width of a ring, as `5 1`.
fn ring(text: &str) -> Option<(u16, u8)>
    ensures { IfSome result (λ sizes. sizes.0 ≤ MAX_FINE_SQUARE) }
{
    let [size, width] = numbers::<2>(text, ' ')?;
    Some((size.clamp(0, 1_024) as u16, width.clamp(0, 255) as u8))
}

// The disc round a point, of a size as `5`, or its ring of a width, as `5 1`.
fn disc(at: &str, form: &str) -> Option<Disc> {
    let at = point(numbers(at, ',')?);
    match ring(form) {
        Some((size, width)) => Some(Disc::ring(at, size, width)),
        None => {
            let [size] = numbers::<1>(form, ' ')?;
            Some(Disc::new(at, size.clamp(0, 1_024) as u16))
        }
    }
}

// Whether a span has a column.
fn has(span: Span, column: u16) -> bool {
    span.from <= column && column < span.to
}

// Adds the pixels of a row, after a blank.
fn draw_row(out: &mut String, disc: Disc, row: u16, width: u16) -> Result<(), AllocError> {
    out.push(' ')?;
    let (left, right) = disc.columns(row.min(2_047), width);
    for column in 0..width {
        let covered = has(left, column) || has(right, column);
        out.push(if covered { '#' } else { '.' })?;
    }
    Ok(())
}

// The rows outside of which a disc covers nothing, and its pixels.
fn drawn(alloc: Global, disc: Disc, width: u16, height: u16) -> Result<String, AllocError> {
    let rows = disc.rows(width, height);
    let mut out = format!(in alloc; "{}-{}", rows.from, rows.to)?;
    for row in 0..height {
        draw_row(&mut out, disc, row, width)?;
    }
    Ok(out)
}

// The rows of a disc and its pixels, its point in sixteenths of a pixel, its size and the width of a ring, and the sides of a
// picture, all worked by hand from the squares of distances. In many a centre lies just on a border: of the disc, as two
// pixels right of a point with size 4, or of the hole, as one pixel right of it in the ring of width 1.
const DISCS: &str = "\
0-5 ..#... .###.. #####. .###.. ..#... ......=40,40|4|6 6
0-5 ..#... .###.. ##.##. .###.. ..#... ......=40,40|4 1|6 6
0-5 ..#... .###.. #####. .###.. ..#... ......=40,40|4 2|6 6
0-5 ..#... .###.. #####. .###.. ..#... ......=40,40|4 32|6 6
0-5 .###. ##### ##### ##### .###.=40,40|5|5 5
0-5 .###. #...# #...# #...# .###.=40,40|5 1|5 5
0-4 .##.. ####. ####. .##..=32,32|4|5 4
0-4 .##.. #..#. #..#. .##..=32,32|4 1|5 4
0-4 .###. ####. ####. .###.=36,32|4|5 4
1-2 ... .#. ...=24,24|1|3 3
0-3 .#. ### .#.=24,24|2|3 3
0-2 ##. ##. ...=16,16|2|3 3
0-5 ##.. ###. ##.. ##.. ....=-8,24|6|4 5
0-5 .#.. .##. .#.. ##.. ....=-8,24|6 1|4 5
0-2 ## ##=0,0|1024|2 2
0-2 .. ..=0,0|1024 1|2 2
0-0 .. ..=-8200,8|1024|2 2
0-2 #. ..=-8184,8|1024|2 2
0-0 .. ..=140737488355327,-140737488355327|1024|2 2";

fn drawn_disc(alloc: Global, row: &str) -> Result<String, AllocError> {
    let Some((at, form, size)) = three(row) else {
        return format!(in alloc; "malformed");
    };
    let (Some(disc), Some((width, height))) = (disc(at, form), sides(size)) else {
        return format!(in alloc; "malformed");
    };
    drawn(alloc, disc, width.pixels(), height.pixels())
}

#[test]
fn discs_and_rings_have_worked_pixels(rt: HostRuntime) -> Result<(), TableFault> {
    check_rows(rt.alloc(), DISCS, '=', 19, drawn_disc)
}
