use geom::{Device, Edge, Micro, PictureSide, Pixel, PxBox, WorldBox};
use scanfill::{Cover, RowRange, Spans};
use std::alloc::{AllocError, Global};
use test_tables::numbers;

/// The side of a picture. That of a row is within the limits.
pub(crate) fn side(pixels: i64) -> PictureSide {
    PictureSide::new(pixels.clamp(1, 2_048) as u16).unwrap()
}

/// The width and the height of a picture, as `8 5`.
pub(crate) fn sides(text: &str) -> Option<(PictureSide, PictureSide)> {
    let [width, height] = numbers::<2>(text, ' ')?;
    Some((side(width), side(height)))
}

/// A device point. That of a row is within the limits.
pub(crate) fn point([x, y]: [i64; 2]) -> Device {
    let limit = 140_737_488_355_327;
    Device::new(x.clamp(-limit, limit), y.clamp(-limit, limit))
}

/// A pixel. That of a row is within the limits.
pub(crate) fn pixel([i, j]: [i64; 2]) -> Pixel {
    let limit = 17_592_186_044_415;
    Pixel::new(i.clamp(-limit, limit), j.clamp(-limit, limit))
}

/// The edge of the numbers of its ends.
pub(crate) fn edge([ax, ay, bx, by]: [i64; 4]) -> Edge {
    Edge::new(point([ax, ay]), point([bx, by]))
}

/// The box of its west, south, east and north side, in millionths of a degree.
pub(crate) fn area([west, south, east, north]: [i64; 4]) -> WorldBox {
    WorldBox::new(
        Micro::new(west),
        Micro::new(south),
        Micro::new(east),
        Micro::new(north),
    )
}

/// The box of pixels of its left, top, right and bottom side.
pub(crate) fn pixels([left, top, right, bottom]: [i64; 4]) -> PxBox {
    PxBox::new(left, top, right, bottom)
}

/// What stands before and after two bars.
pub(crate) fn three(row: &str) -> Option<(&str, &str, &str)> {
    let (first, row) = row.split_once('|')?;
    let (second, third) = row.split_once('|')?;
    Some((first, second, third))
}

// A ring of points as `16,48`, with blanks between. A malformed one ends a test as one for which memory is
// refused.
fn ring(alloc: Global, text: &str) -> Result<Vec<Device>, AllocError> {
    let mut ring = Vec::new(alloc);
    for pair in text.split_whitespace() {
        ring.push(point(numbers(pair, ',').ok_or(AllocError)?))?;
    }
    Ok(ring)
}

/// The rings that `/` parts. A malformed one ends a test as one for which memory is refused.
pub(crate) fn rings(alloc: Global, text: &str) -> Result<Vec<Vec<Device>>, AllocError> {
    let mut rings = Vec::new(alloc);
    for part in text.split('/') {
        rings.push(ring(alloc, part)?)?;
    }
    Ok(rings)
}

/// Adds a row as its spans, as `1-3+5-6`, or `-` where it has none.
pub(crate) fn draw_spans(out: &mut String, spans: &Spans) -> Result<(), AllocError> {
    if spans.as_slice().is_empty() {
        return out.push('-');
    }
    let mut between = "";
    for span in spans.as_slice() {
        write!(out, "{between}{}-{}", span.from, span.to)?;
        between = "+";
    }
    Ok(())
}

// Rows as `1-3`, or `-` where there are none.
fn draw_rows(alloc: Global, rows: RowRange) -> Result<String, AllocError> {
    if rows.from < rows.to {
        format!(in alloc; "{}-{}", rows.from, rows.to)
    } else {
        format!(in alloc; "-")
    }
}

/// The rows of a cover, or the first one outside of them that covers a pixel. Where the rows are to be the
/// covered ones alone, also the first one of them that covers none.
pub(crate) fn rows_of_cover<C: Cover>(
    alloc: Global,
    cover: &C,
    width: PictureSide,
    height: PictureSide,
    are_covered: bool,
) -> Result<String, AllocError> {
    let rows = cover.rows(width, height);
    let mut spans = Spans::new(alloc);
    for row in 0..height.pixels() {
        cover.row(row, width, &mut spans)?;
        let is_covered = !spans.as_slice().is_empty();
        if is_covered != rows.has(row) && (is_covered || are_covered) {
            return format!(in alloc; "row {row}");
        }
    }
    draw_rows(alloc, rows)
}

// The mark of a pixel: `#` where it is in the spans and is covered when tested alone, `.` where it is
// neither, and `?` where the two differ.
fn mark(spans: &Spans, column: u16, is_covered: bool) -> char {
    let is_in = spans
        .as_slice()
        .iter()
        .any(|span| span.from <= column && column < span.to);
    match (is_in, is_covered) {
        (true, true) => '#',
        (false, false) => '.',
        _ => '?',
    }
}

// Adds the pixels of a row, with a blank before them.
fn draw_pixels<C: Cover>(
    out: &mut String,
    cover: &C,
    spans: &mut Spans,
    row: u16,
    width: PictureSide,
) -> Result<(), AllocError> {
    let row = row.min(2_047);
    out.push(' ')?;
    cover.row(row, width, spans)?;
    for column in 0..width.pixels() {
        out.push(mark(spans, column, cover.covers(column, row)))?;
    }
    Ok(())
}

/// The rows of a cover, and then its pixels, row by row.
pub(crate) fn drawn<C: Cover>(
    alloc: Global,
    cover: &C,
    width: PictureSide,
    height: PictureSide,
) -> Result<String, AllocError> {
    let mut text = draw_rows(alloc, cover.rows(width, height))?;
    let mut spans = Spans::new(alloc);
    for row in 0..height.pixels() {
        draw_pixels(&mut text, cover, &mut spans, row, width)?;
    }
    Ok(text)
}
