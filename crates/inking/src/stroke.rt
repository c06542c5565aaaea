ghost use Rattle.std.specs.Prelude.{◌≡◌, ◌≤◌, true, map, pos, OnOk, IfOk, Some};
ghost use Rattle.strokes.specs.Segment.{covers_segment};
ghost use Rattle.geom.specs.Device.{pixel_centre};
ghost use Rattle.mapdefs.specs.declared.limits.TheConstants.{MAX_FINE_WIDTH};
ghost use Rattle.strokes.specs.Strip.{is_small};
ghost use Rattle.strokes.specs.Line.{line_of};
ghost use Rattle.strokes.specs.Line as line;
ghost use Rattle.viewport.specs.View.{device_point, points_of};
ghost use Rattle.vertices.specs.Chain.{HasChain, chain_end};
ghost use Rattle.canvas.specs.Painted.{IsFilled};
ghost use Rattle.inking.specs.Stroked.{HasAlready, IsOf, IsTip, IsTrail, chain_covers, part_covers, pen_covers, segment_covers, step_covers, vertex_covers};

use crate::pen::{Pen, has_box, has_place};
use crate::strips::{fill_across, fill_down};
use crate::trail::{Tip, Trail};
use canvas::{Canvas, fill_pixel, fill_square, paint_cover};
use geom::{Device, Edge, World};
use mapdefs::{Part, Rgb, split_block};
use std::alloc::AllocError;
use strokes::{Segment, Square, Strip, are_neighbours, is_small, is_steep};
use vertices::{Block, FEW_VERTICES, last_of};

/// Paints the line of a pen along the vertices of each part. A closed line joins each part's last vertex to its first.
/// It takes memory for the row of each segment that isn't small, and no other.
pub fn paint_along_parts(
    canvas: &mut Canvas,
    pen: &Pen<'_>,
    parts: &[Part],
    closed: bool,
) -> Result<(), AllocError>
    requires { IsOf pen.now canvas.old }
    ensures { OnOk result
        (IsFilled (λ i j. line.covers_pixel (line_of (points_of pen.now.view parts.now) closed pen.now.width) (pos i) (pos j))
        (λ i j. Some pen.now.colour) canvas.old canvas.new) }
{
    for part in parts {
        paint_along(canvas, pen, part, closed)?;
    }
    Ok(())
}

// Paints the line along one part: step by step if it has few vertices, else block by block.
fn paint_along(
    canvas: &mut Canvas,
    pen: &Pen<'_>,
    part: &Part,
    closed: bool,
) -> Result<(), AllocError>
    requires { IsOf pen.now canvas.old }
    ensures { OnOk result
        (IsFilled (part_covers closed pen.now.width (map (device_point pen.now.view) part.now)) (λ i j. Some pen.now.colour) canvas.old canvas.new) }
{
    if part.len() <= FEW_VERTICES {
        return paint_small(canvas, pen, part.as_slice(), closed);
    }
    paint_blocks(canvas, pen, part, closed)
}

// Paints the line along some vertices, step by step.
fn paint_small(
    canvas: &mut Canvas,
    pen: &Pen<'_>,
    part: &[World],
    closed: bool,
) -> Result<(), AllocError>
    requires { IsOf pen.now canvas.old }
    ensures { OnOk result
        (IsFilled (part_covers closed pen.now.width (map (device_point pen.now.view) part.now)) (λ i j. Some pen.now.colour) canvas.old canvas.new) }
{
    let Some((first, rest)) = part.split_first() else {
        return Ok(());
    };
    let _area = canvas.width();
    let from = *first;
    let at = pen.projection().device(from);
    fill_vertex(canvas, pen, at);
    let end = paint_few(canvas, pen, Tip { from, at }, rest)?;
    if closed {
        paint_step(canvas, pen, end.at, at)?;
    }
    Ok(())
}

// Paints the steps from a vertex over those that follow. Each is projected once, and none is skipped.
fn paint_few(
    canvas: &mut Canvas,
    pen: &Pen<'_>,
    mut tip: Tip,
    rest: &[World],
) -> Result<Tip, AllocError>
    requires sides { IsOf pen.now canvas.old }
    requires tip { IsTip pen.now canvas.old tip }
    ensures from { IfOk result (λ end. end.from ≡ chain_end tip.from rest.now) }
    ensures tip { IfOk result (λ end. IsTip pen.now canvas.new end) }
    ensures filled { OnOk result (IsFilled (chain_covers pen.now tip.from rest.now) (λ i j. Some pen.now.colour) canvas.old canvas.new) }
{
    for to in rest {
        let at = pen.projection().device(*to);
        paint_step(canvas, pen, tip.at, at)?;
        tip = Tip { from: *to, at };
    }
    Ok(tip)
}

// Paints the line along one part, block by block.
fn paint_blocks(
    canvas: &mut Canvas,
    pen: &Pen<'_>,
    part: &Part,
    closed: bool,
) -> Result<(), AllocError>
    requires { IsOf pen.now canvas.old }
    ensures { OnOk result
        (IsFilled (part_covers closed pen.now.width (map (device_point pen.now.view) part.now)) (λ i j. Some pen.now.colour) canvas.old canvas.new) }
{
    let Some((first, rest)) = part.as_slice().split_first() else {
        return Ok(());
    };
    let mut trail = begin(canvas, pen, *first);
    let mut left = rest;
    for area in part.boxes() {
        let (vertices, behind) = split_block(left);
        let block = Block {
            area: *area,
            vertices,
        };
        trail = paint_block(canvas, pen, trail, &block)?;
        left = behind;
    }
    if closed {
        go_on(canvas, pen, &trail, *first)?;
    }
    Ok(())
}

// Goes on over the vertices of a block: at once to the last one if the block's box lies in the trail's, else step by
// step.
fn paint_block(
    canvas: &mut Canvas,
    pen: &Pen<'_>,
    trail: Trail,
    block: &Block<'_>,
) -> Result<Trail, AllocError>
    requires sides { IsOf pen.now canvas.old }
    requires trail { IsTrail pen.now canvas.old trail }
    requires has { HasChain block.now.area trail.from block.now.vertices.now }
    ensures from { IfOk result (λ next. next.from ≡ chain_end trail.from block.now.vertices.now) }
    ensures trail { IfOk result (λ next. IsTrail pen.now canvas.new next) }
    ensures filled { OnOk result (IsFilled (chain_covers pen.now trail.from block.now.vertices.now) (λ i j. Some pen.now.colour) canvas.old canvas.new) }
{
    if has_box(&trail.quiet, block.area) {
        return Ok(Trail {
            from: last_of(trail.from, block.vertices),
            quiet: trail.quiet,
        });
    }
    paint_steps(canvas, pen, trail, block.vertices)
}

// Paints the steps over the vertices of a block. A step within the trail's box is skipped.
fn paint_steps(
    canvas: &mut Canvas,
    pen: &Pen<'_>,
    mut trail: Trail,
    block: &[World],
) -> Result<Trail, AllocError>
    requires sides { IsOf pen.now canvas.old }
    requires trail { IsTrail pen.now canvas.old trail }
    ensures from { IfOk result (λ next. next.from ≡ chain_end trail.from block.now) }
    ensures trail { IfOk result (λ next. IsTrail pen.now canvas.new next) }
    ensures filled { OnOk result (IsFilled (chain_covers pen.now trail.from block.now) (λ i j. Some pen.now.colour) canvas.old canvas.new) }
{
    for to in block {
        if has_place(&trail.quiet, *to) {
            trail.from = *to;
        } else {
            trail = go_on(canvas, pen, &trail, *to)?;
        }
    }
    Ok(trail)
}

// Paints the square round the first vertex.
fn begin(canvas: &mut Canvas, pen: &Pen<'_>, first: World) -> Trail
    requires { IsOf pen.now canvas.old }
    ensures from { result.from ≡ first }
    ensures trail { IsTrail pen.now canvas.new result }
    ensures filled { IsFilled (vertex_covers pen.now.width (device_point pen.now.view first)) (λ i j. Some pen.now.colour) canvas.old canvas.new }
{
    let _area = canvas.width();
    let at = pen.projection().device(first);
    fill_vertex(canvas, pen, at);
    Trail {
        from: first,
        quiet: pen.quiet_at(first, at),
    }
}

// Goes on to the next vertex: paints the segment to it and the square round it. Inlined with what it calls, since a call
// hands trails and boxes through memory.
#[inline(always)]
fn go_on(canvas: &mut Canvas, pen: &Pen<'_>, trail: &Trail, to: World) -> Result<Trail, AllocError>
    requires sides { IsOf pen.now canvas.old }
    requires trail { IsTrail pen.now canvas.old trail.now }
    ensures from { IfOk result (λ next. next.from ≡ to) }
    ensures trail { IfOk result (λ next. IsTrail pen.now canvas.new next) }
    ensures filled { OnOk result (IsFilled (pen_covers pen.now trail.now.from to) (λ i j. Some pen.now.colour) canvas.old canvas.new) }
{
    let _area = canvas.width();
    let projection = pen.projection();
    let from = projection.device(trail.from);
    let at = projection.device(to);
    paint_step(canvas, pen, from, at)?;
    Ok(Trail {
        from: to,
        quiet: pen.quiet_at(to, at),
    })
}

// Paints a step whose first square is already painted. A short segment of an odd width adds nothing to the squares round
// its ends.
#[inline(always)]
fn paint_step(
    canvas: &mut Canvas,
    pen: &Pen<'_>,
    from: Device,
    to: Device,
) -> Result<(), AllocError>
    requires { HasAlready pen.now canvas.old (vertex_covers pen.now.width from) }
    ensures { OnOk result (IsFilled (step_covers pen.now.width from to) (λ i j. Some pen.now.colour) canvas.old canvas.new) }
{
    let width = pen.width();
    let (first, second) = (from.pixel(), to.pixel());
    if width % 2 == 0 || !are_neighbours(u16::from(width), first, second) {
        return paint_long_step(canvas, pen, from, to);
    }
    if !are_neighbours(0, first, second) {
        fill_vertex(canvas, pen, to);
    }
    Ok(())
}

// Paints the segment of a step, and the square round its second vertex.
fn paint_long_step(
    canvas: &mut Canvas,
    pen: &Pen<'_>,
    from: Device,
    to: Device,
) -> Result<(), AllocError>
    ensures { OnOk result (IsFilled (step_covers pen.now.width from to) (λ i j. Some pen.now.colour) canvas.old canvas.new) }
{
    paint_segment(canvas, pen, from, to)?;
    fill_vertex(canvas, pen, to);
    Ok(())
}

// Paints the segment between two vertices.
fn paint_segment(
    canvas: &mut Canvas,
    pen: &Pen<'_>,
    from: Device,
    to: Device,
) -> Result<(), AllocError>
    ensures { OnOk result (IsFilled (segment_covers pen.now.width from to) (λ i j. Some pen.now.colour) canvas.old canvas.new) }
{
    let (edge, width) = (Edge::new(from, to), pen.width());
    if !is_small(edge) {
        return paint_cover(canvas, &Segment::new(edge, width), pen.colour());
    }
    fill_segment(canvas, edge, width, pen.colour());
    Ok(())
}

// Gives the colour to the pixels of a small segment: row by row if it is steep, else column by column.
fn fill_segment(canvas: &mut Canvas, edge: Edge, width: u8, colour: Rgb)
    requires some { 1 ≤ width }
    requires most { width ≤ MAX_FINE_WIDTH }
    requires small { is_small edge ≡ true }
    ensures { IsFilled (λ i j. covers_segment width edge (pixel_centre (pos i) (pos j))) (λ i j. Some colour) canvas.old canvas.new }
{
    if is_steep(edge) {
        fill_down(canvas, Strip::down(edge, width), colour);
        return;
    }
    if let Some(strip) = Strip::across(edge, width) {
        fill_across(canvas, strip, colour);
    }
}

// Gives the colour to the pixels of the square round a vertex.
fn fill_vertex(canvas: &mut Canvas, pen: &Pen<'_>, vertex: Device)
    ensures { IsFilled (vertex_covers pen.now.width vertex) (λ i j. Some pen.now.colour) canvas.old canvas.new }
{
    let (pixel, width) = (vertex.pixel(), pen.width());
    if width == 1 {
        fill_pixel(canvas, pixel, pen.colour());
        return;
    }
    fill_square(canvas, Square::new(pixel, u16::from(width)), pen.colour());
}
