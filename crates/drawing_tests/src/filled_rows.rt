use crate::shapes::{draw_spans, point, rings, rows_of_cover, side, sides};
use geom::{Device, Edge, PictureSide};
use scanfill::{Cover, Polygon, Span, Spans, Sweep, Work};
use std::alloc::{AllocError, Global};
use std::test::Fail;
use test_tables::{TableFault, check_rows};

// Adds the rows of a sweep with a blank before each, and `!` where it doesn't end after so many, or leaves
// spans at its end.
fn draw_rows(
    out: &mut String,
    sweep: &mut Sweep,
    spans: &mut Spans,
    height: PictureSide,
) -> Result<(), AllocError> {
    for _row in 0..height.pixels() {
        if !sweep.next(spans)? {
            return out.push('!');
        }
        out.push(' ')?;
        draw_spans(out, spans)?;
    }
    if sweep.next(spans)? || !spans.as_slice().is_empty() {
        out.push('!')?;
    }
    Ok(())
}

// The divisions of a sweep, and its rows.
fn swept(
    alloc: Global,
    polygon: &Polygon,
    width: PictureSide,
    height: PictureSide,
) -> Result<String, AllocError> {
    let mut work = Work::new();
    let mut sweep = polygon.sweep(width, height, &mut work)?;
    let mut text = format!(in alloc; "{}:", work.divisions)?;
    draw_rows(&mut text, &mut sweep, &mut Spans::new(alloc), height)?;
    Ok(text)
}

// The divisions of a sweep and its rows, worked by hand, rings, and the sides of a picture. The first four are
// squares and a bow tie of two to four degrees on 4 by 4 pixels of a degree each, one of them much larger
// than the picture and one left of it.
const SWEEPS: &str = "\
4: - 1-3 1-3 -=16,48 48,48 48,16 16,16|4 4
8: - 2-3 2-3 -=16,48 48,16 48,48 16,16|4 4
0: 0-4 0-4 0-4 0-4=-3200,3264 3200,3264 3200,-3136 -3200,-3136|4 4
0: - - - -=-48,48 -16,48 -16,16 -48,16|4 4
4: 0-4 0-1+3-4 0-1+3-4 0-4=0,0 64,0 64,64 0,64/16,16 48,16 48,48 16,48|4 4
4: 1-2 1-2 -=9,8 40,8 40,40 9,40|5 3
4: 1-3 1-3 -=24,8 56,8 56,40 24,40|5 3
2: 0-2 0-2 0-2=8,0 8,48 40,48 40,0|3 3
0: - - - -=24,24|4 4
4: - - - -=0,0 64,64|4 4
0: - -=0,0 64,0 64,64 0,64/0,0 64,0 64,64 0,64|4 2";

// The polygon of rings.
fn polygon(alloc: Global, text: &str) -> Result<Polygon, AllocError> {
    let rings = rings(alloc, text)?;
    Polygon::new(alloc, rings.as_slice())
}

// The rings and the sides of a row.
fn parts(row: &str) -> Option<(&str, PictureSide, PictureSide)> {
    let (rings, size) = row.split_once('|')?;
    let (width, height) = sides(size)?;
    Some((rings, width, height))
}

fn swept_rings(alloc: Global, row: &str) -> Result<String, AllocError> {
    let Some((rings, width, height)) = parts(row) else {
        return format!(in alloc; "malformed");
    };
    let polygon = polygon(alloc, rings)?;
    swept(alloc, &polygon, width, height)
}

#[test]
fn sweeps_have_worked_rows(rt: HostRuntime) -> Result<(), TableFault> {
    check_rows(rt.alloc(), SWEEPS, '=', 11, swept_rings)
}

// The rows outside of which no pixel is covered, `-` for none, worked by hand, rings, and the sides of a
// picture: on the picture, partly above it and below it, wholly above, below and on its left, two rings apart
// in both orders, thin ones about a pixel centre, one point and none.
const ROWS: &str = "\
1-3=16,48 48,48 48,16 16,16|4 5
0-2=0,-40 40,-40 40,25 0,25|5 4
2-3=0,40 40,40 40,90 0,90|4 3
-=0,-40 40,-40 40,-8 0,-8|4 6
-=0,48 40,48 40,90 0,90|4 3
1-4=-48,16 -16,16 -16,64 -48,64|3 6
0-5=0,0 32,0 32,16 0,16/0,64 32,64 32,80 0,80|5 7
1-5=0,64 32,64 32,80 0,80/0,16 32,16 32,32 0,32|5 7
1-2=8,24 8,25 9,25|4 5
-=8,25 8,40 9,40|4 5
-=24,24|4 4
-=|4 4";

fn rows_of_rings(alloc: Global, row: &str) -> Result<String, AllocError> {
    let Some((rings, width, height)) = parts(row) else {
        return format!(in alloc; "malformed");
    };
    let polygon = polygon(alloc, rings)?;
    rows_of_cover(alloc, &polygon, width, height, false)
}

#[test]
fn polygons_have_worked_rows(rt: HostRuntime) -> Result<(), TableFault> {
    check_rows(rt.alloc(), ROWS, '=', 12, rows_of_rings)
}

// The next number of a sequence, below 1,000.
fn next(state: &mut u64) -> u16 {
    *state = state
        .wrapping_mul(6_364_136_223_846_793_005)
        .wrapping_add(1_442_695_040_888_963_407);
    ((*state >> 33) % 1_000) as u16
}

// A number on vertices and pixel centres, one anywhere about the picture, or one far off it.
fn number(state: &mut u64, kind: u16) -> i64 {
    let number = i64::from(next(state));
    match kind % 4 {
        0 | 1 => (number % 12 - 2) * 8,
        2 => number % 120 - 20,
        _ => (number - 500) * 250_000_000_000,
    }
}

// A ring of up to seven vertices.
fn some_ring(alloc: Global, state: &mut u64, kind: u16) -> Result<Vec<Device>, AllocError> {
    let mut ring = Vec::new(alloc);
    for _vertex in 0..next(state) % 8 {
        let x = number(state, kind);
        ring.push(point([x, number(state, kind)]))?;
    }
    Ok(ring)
}

// A polygon of two rings.
fn some_polygon(alloc: Global, state: &mut u64, kind: u16) -> Result<Polygon, AllocError> {
    let mut rings = Vec::new(alloc);
    rings.push(some_ring(alloc, state, kind)?)?;
    rings.push(some_ring(alloc, state, kind)?)?;
    Polygon::new(alloc, rings.as_slice())
}

// Whether the spans are the pixels of the row that the polygon covers.
fn are_covered(polygon: &Polygon, row: u16, width: PictureSide, spans: &Spans) -> bool {
    let row = row.min(2_047);
    for column in 0..width.pixels() {
        let is_in = spans
            .as_slice()
            .iter()
            .any(|span| span.from <= column && column < span.to);
        if is_in != polygon.covers(column, row) {
            return false;
        }
    }
    true
}

// Whether a row, the sweep and each pixel alone agree on a picture of that height. What owns
// memory is lent.
fn rows_agree(
    polygon: &Polygon,
    sweep: &mut Sweep,
    swept: &mut Spans,
    read: &mut Spans,
    width: PictureSide,
    height: PictureSide,
) -> Result<bool, AllocError> {
    for row in 0..height.pixels() {
        let more = sweep.next(swept)?;
        polygon.row(row, width, read)?;
        if !more || swept.as_slice() != read.as_slice() || !are_covered(polygon, row, width, read) {
            return Ok(false);
        }
    }
    Ok(!sweep.next(swept)?)
}

// Whether they say the same on that picture.
fn agree(
    alloc: Global,
    polygon: &Polygon,
    width: PictureSide,
    height: PictureSide,
) -> Result<bool, AllocError> {
    let mut sweep = polygon.sweep(width, height, &mut Work::new())?;
    let mut swept = Spans::new(alloc);
    let mut read = Spans::new(alloc);
    rows_agree(polygon, &mut sweep, &mut swept, &mut read, width, height)
}

// Whether they agree on some polygon.
fn agree_on_some(alloc: Global, state: &mut u64, kind: u16) -> Result<bool, AllocError> {
    let polygon = some_polygon(alloc, state, kind)?;
    agree(
        alloc,
        &polygon,
        side(1 + i64::from(kind % 7)),
        side(1 + i64::from(kind % 5)),
    )
}

// The first of 300 polygons on which they don't agree.
fn first_without(alloc: Global, mut state: u64) -> Result<Option<u16>, AllocError> {
    for kind in 0..300_u16 {
        if !agree_on_some(alloc, &mut state, kind)? {
            return Ok(Some(kind));
        }
    }
    Ok(None)
}

#[test]
fn rows_sweeps_and_pixels_agree(rt: HostRuntime) -> Result<(), Fail> {
    assert_eq!(rt; first_without(rt.alloc(), 20_261_123)?, None);
    Ok(())
}

// A thousand and twenty-four upright bars, in every second column. The first one's left edge lies left of
// the view, so that 2,047 edges are walked.
fn bars(alloc: Global) -> Result<Polygon, AllocError> {
    let mut edges = Vec::new(alloc);
    for bar in 0..1_024_u16 {
        let x = 32 * i64::from(bar);
        edges.push(Edge::new(point([x, 0]), point([x, 32_768])))?;
        edges.push(Edge::new(point([x + 16, 32_768]), point([x + 16, 0])))?;
    }
    Ok(Polygon::of(edges))
}

// How many spans the first row of a sweep has, and which is the last. There are none where it isn't the
// row of the polygon.
fn first_spans(
    polygon: &Polygon,
    sweep: &mut Sweep,
    swept: &mut Spans,
    read: &mut Spans,
) -> Result<(usize, Option<Span>), AllocError> {
    let more = sweep.next(swept)?;
    polygon.row(2_047, side(2_048), read)?;
    if !more || swept.as_slice() != read.as_slice() {
        return Ok((0, None));
    }
    Ok((swept.as_slice().len(), swept.as_slice().last().copied()))
}

// The first row of a sweep on the largest picture, where so many divisions stood before, and how many stand
// then.
fn first_row(
    alloc: Global,
    polygon: &Polygon,
    divisions: u64,
) -> Result<(u64, (usize, Option<Span>)), AllocError> {
    let mut work = Work { divisions };
    let mut sweep = polygon.sweep(side(2_048), side(2_048), &mut work)?;
    let mut swept = Spans::new(alloc);
    let mut read = Spans::new(alloc);
    let first = first_spans(polygon, &mut sweep, &mut swept, &mut read)?;
    Ok((work.divisions, first))
}

// The result of the bars after so many divisions: how many there are then, how many spans the
// first row has, and the last of them.
fn result_of_bars(alloc: Global, before: &str) -> Result<String, AllocError> {
    let Ok(before) = before.parse::<u64>() else {
        return String::from_str(alloc, "malformed");
    };
    let polygon = bars(alloc)?;
    match first_row(alloc, &polygon, before)? {
        (divisions, (count, Some(last))) => {
            format!(in alloc; "{divisions} {count} {}-{}", last.from, last.to)
        }
        _ => String::from_str(alloc, "no spans"),
    }
}

#[test]
fn widest_rows_have_many_spans(rt: HostRuntime) -> Result<(), TableFault> {
    let row = "18446744073709551615 1024 2046-2047=18446744073709547522";
    check_rows(rt.alloc(), row, '=', 1, result_of_bars)
}

// Whether spans are equal that have equal ends, and no others.
fn spans_have_two_ends() -> bool {
    let span = Span { from: 3, to: 5 };
    span == Span { from: 3, to: 5 }
        && span != Span { from: 2, to: 5 }
        && span != Span { from: 3, to: 6 }
}

#[test]
fn spans_differ_where_one_end_does(rt: HostRuntime) {
    assert!(rt; spans_have_two_ends());
}

// Adds the rows to which a sweep skips, one after another, and `!` where none is left.
fn draw_skips(
    out: &mut String,
    sweep: &mut Sweep,
    spans: &mut Spans,
    count: u8,
) -> Result<(), AllocError> {
    for _skip in 0..count {
        sweep.skip();
        write!(out, " {}", sweep.row())?;
        if !sweep.next(spans)? {
            out.push('!')?;
        }
    }
    Ok(())
}

// The result of five skips.
fn skipped(alloc: Global, rings: &str) -> Result<String, AllocError> {
    let polygon = polygon(alloc, rings)?;
    let mut sweep = polygon.sweep(side(9), side(14), &mut Work::new())?;
    let mut text = String::new(alloc);
    draw_skips(&mut text, &mut sweep, &mut Spans::new(alloc), 5)?;
    Ok(text)
}

// The rows to which a sweep skips, and rings.
const SKIPS: &str = " 5 6 10 11 14!=16,88 48,88 48,120/16,168 48,168 48,200";

#[test]
fn sweeps_skip_rows_without_edges(rt: HostRuntime) -> Result<(), TableFault> {
    check_rows(rt.alloc(), SKIPS, '=', 1, skipped)
}

// The polygon of one edge.
fn one_edge(alloc: Global) -> Result<Polygon, AllocError> {
    let mut edges = Vec::new(alloc);
    edges.push(Edge::new(point([16, 16]), point([48, 48])))?;
    Ok(Polygon::of(edges))
}

fn swept_edge(alloc: Global, _of: &str) -> Result<String, AllocError> {
    let polygon = one_edge(alloc)?;
    swept(alloc, &polygon, side(4), side(4))
}

// One edge alone: the pixels from its column on lie inside.
#[test]
fn walks_have_worked_columns(rt: HostRuntime) -> Result<(), TableFault> {
    check_rows(rt.alloc(), "2: - 1-4 2-4 -=one edge", '=', 1, swept_edge)
}
