ghost use Rattle.std.specs.Prelude.{◌≡◌, ◌^◌, true, map, pos, IfOk, OnOk, Some};
ghost use Rattle.geom.specs.Range.{IsBelow};
ghost use Rattle.strokes.specs.Round as round;
ghost use Rattle.strokes.specs.Round.{round_line};
ghost use Rattle.strokes.specs.Strip.{is_small_point};
ghost use Rattle.viewport.specs.View.{device_point, points_of};
ghost use Rattle.vertices.specs.Chain.{HasChain, chain_end};
ghost use Rattle.canvas.specs.Painted.{IsFilled};
ghost use Rattle.inking.specs.Rounded.{IsRoundTip, round_chain_covers, round_part_covers, round_step_covers};
ghost use Rattle.inking.specs.Stroked.{IsOf};

use crate::round_fill::fill_step;
use crate::round_pen::RoundPen;
use crate::trail::RoundTip;
use canvas::{Canvas, paint_cover};
use geom::{Device, World};
use mapdefs::{Part, split_block};
use std::alloc::AllocError;
use strokes::is_small_point;
use vertices::{Block, last_of};

/// Paints the round line of a pen along the vertices of each part. The canvas keeps the pen's chords.
pub fn paint_round_line(
    canvas: &mut Canvas,
    pen: RoundPen<'_>,
    parts: &[Part],
    closed: bool,
) -> Result<(), AllocError>
    requires { IsOf pen canvas.old }
    ensures { OnOk result
        (IsFilled (λ i j. round.covers_pixel (round_line (points_of pen.entry.view parts.now) closed pen.entry.width) (pos i) (pos j))
        (λ i j. Some pen.entry.colour) canvas.old canvas.new) }
{
    let painted = paint_round_parts(canvas, &pen, parts, closed);
    pen.put_down(canvas);
    painted
}

// Paints the round line of a pen along the vertices of each part. A closed line joins each part's last vertex to its first.
fn paint_round_parts(
    canvas: &mut Canvas,
    pen: &RoundPen<'_>,
    parts: &[Part],
    closed: bool,
) -> Result<(), AllocError>
    requires { IsOf pen.now canvas.old }
    ensures { OnOk result
        (IsFilled (λ i j. round.covers_pixel (round_line (points_of pen.now.view parts.now) closed pen.now.width) (pos i) (pos j))
        (λ i j. Some pen.now.colour) canvas.old canvas.new) }
{
    for part in parts {
        paint_round_part(canvas, pen, part, closed)?;
    }
    Ok(())
}

// Paints the round line along one part, block by block.
fn paint_round_part(
    canvas: &mut Canvas,
    pen: &RoundPen<'_>,
    part: &Part,
    closed: bool,
) -> Result<(), AllocError>
    requires { IsOf pen.now canvas.old }
    ensures { OnOk result
        (IsFilled (round_part_covers closed pen.now.width (map (device_point pen.now.view) part.now)) (λ i j. Some pen.now.colour) canvas.old canvas.new) }
{
    let Some((first, rest)) = part.as_slice().split_first() else {
        return Ok(());
    };
    let start = pen.device(*first);
    paint_round_step(canvas, pen, start, start)?;
    let mut from = *first;
    let mut left = rest;
    for area in part.boxes() {
        let (vertices, behind) = split_block(left);
        let block = Block {
            area: *area,
            vertices,
        };
        from = paint_round_block(canvas, pen, from, &block)?;
        left = behind;
    }
    if closed {
        paint_round_step(canvas, pen, pen.device(from), start)?;
    }
    Ok(())
}

// Goes on over the vertices of a block: at once to the last one if the block's box lies apart from the pen's window.
fn paint_round_block(
    canvas: &mut Canvas,
    pen: &RoundPen<'_>,
    from: World,
    block: &Block<'_>,
) -> Result<World, AllocError>
    requires sides { IsOf pen.now canvas.old }
    requires has { HasChain block.now.area from block.now.vertices.now }
    ensures end { IfOk result (λ end. end ≡ chain_end from block.now.vertices.now) }
    ensures filled { OnOk result (IsFilled (round_chain_covers pen.now from block.now.vertices.now) (λ i j. Some pen.now.colour) canvas.old canvas.new) }
{
    let _area = canvas.width();
    if pen.misses(block.area) {
        return Ok(last_of(from, block.vertices));
    }
    paint_round_chain(canvas, pen, from, block.vertices)
}

// Paints the round segments from a vertex over those that follow. Each is projected once. The first one is painted in any
// case, since the disc round its first end may not be.
fn paint_round_chain(
    canvas: &mut Canvas,
    pen: &RoundPen<'_>,
    from: World,
    rest: &[World],
) -> Result<World, AllocError>
    ensures end { IfOk result (λ end. end ≡ chain_end from rest.now) }
    ensures filled { OnOk result (IsFilled (round_chain_covers pen.now from rest.now) (λ i j. Some pen.now.colour) canvas.old canvas.new) }
{
    let at = pen.device(from);
    let mut tip = RoundTip {
        at,
        has_disc: false,
    };
    for place in rest {
        let to = pen.device(*place);
        tip = paint_next(canvas, pen, tip, to)?;
    }
    Ok(last_of(from, rest))
}

// Goes on to the next point. A segment without length adds nothing to a disc that is painted.
fn paint_next(
    canvas: &mut Canvas,
    pen: &RoundPen<'_>,
    tip: RoundTip,
    to: Device,
) -> Result<RoundTip, AllocError>
    requires { IsRoundTip pen.now canvas.old tip }
    ensures at { IfOk result (λ next. next.at ≡ to) }
    ensures tip { IfOk result (λ next. IsRoundTip pen.now canvas.new next) }
    ensures filled { OnOk result (IsFilled (round_step_covers pen.now.width tip.at to) (λ i j. Some pen.now.colour) canvas.old canvas.new) }
{
    if tip.has_disc && is_same(tip.at, to) {
        return Ok(tip);
    }
    paint_round_step(canvas, pen, tip.at, to)?;
    Ok(RoundTip {
        at: to,
        has_disc: true,
    })
}

// Whether two points are one.
fn is_same(a: Device, b: Device) -> bool
    ensures { result ≡ true → a ≡ b }
{
    a.x() == b.x() && a.y() == b.y()
}

// Paints the round segment between two vertices. A short one takes no memory.
fn paint_round_step(
    canvas: &mut Canvas,
    pen: &RoundPen<'_>,
    from: Device,
    to: Device,
) -> Result<(), AllocError>
    ensures { OnOk result (IsFilled (round_step_covers pen.now.width from to) (λ i j. Some pen.now.colour) canvas.old canvas.new) }
{
    if !is_short(from, to) {
        return paint_long_step(canvas, pen, from, to);
    }
    fill_short_step(canvas, pen, from, to);
    Ok(())
}

// Paints any one by its rows.
fn paint_long_step(
    canvas: &mut Canvas,
    pen: &RoundPen<'_>,
    from: Device,
    to: Device,
) -> Result<(), AllocError>
    ensures { OnOk result (IsFilled (round_step_covers pen.now.width from to) (λ i j. Some pen.now.colour) canvas.old canvas.new) }
{
    paint_cover(canvas, &pen.segment(from, to), pen.colour())
}

// Paints one between points near to the picture by the chords of its discs.
fn fill_short_step(canvas: &mut Canvas, pen: &RoundPen<'_>, from: Device, to: Device)
    requires from { is_small_point from ≡ true }
    requires to { is_small_point to ≡ true }
    ensures { IsFilled (round_step_covers pen.now.width from to) (λ i j. Some pen.now.colour) canvas.old canvas.new }
{
    fill_step(canvas, &pen.step(from, to), pen.colour());
}

// Whether two points lie near to the picture, and less than 64 pixels apart across and down.
fn is_short(from: Device, to: Device) -> bool
    ensures from { result ≡ true → is_small_point from ≡ true }
    ensures to { result ≡ true → is_small_point to ≡ true }
{
    is_small_point(from)
        && is_small_point(to)
        && are_close(from.x(), to.x())
        && are_close(from.y(), to.y())
}

// Whether two numbers are less than 64 pixels apart.
fn are_close(a: i64, b: i64) -> bool
    requires a { IsBelow (2 ^ 47) a }
    requires b { IsBelow (2 ^ 47) b }
{
    (a - b).unsigned_abs() < 1024
}
