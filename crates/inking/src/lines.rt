ghost use Rattle.std.specs.Prelude.{◌≡◌, OnOk};
ghost use Rattle.std.specs.List.{flat_map};
ghost use Rattle.viewport.specs.View.{points_of};
ghost use Rattle.inking.specs.Styles.{line_shapes};
ghost use Rattle.canvas.specs.Painted.{IsPainted};

use crate::pen::Pen;
use crate::round_pen::RoundPen;
use crate::round_stroke::paint_round_line;
use crate::stroke::paint_along_parts;
use canvas::Canvas;
use mapdefs::{Part, Style};
use scene::Scene;
use std::alloc::AllocError;

/// Paints lines along these parts by each style, in order. The canvas has the sides of the scene's picture.
pub fn paint_lines(
    canvas: &mut Canvas,
    scene: &Scene<'_>,
    parts: &[Part],
    styles: &[Style],
) -> Result<(), AllocError>
    requires width { canvas.old.width ≡ scene.now.view.width }
    requires height { canvas.old.height ≡ scene.now.view.height }
    ensures { let points = points_of scene.now.view parts.now in
        OnOk result (IsPainted canvas.old canvas.new (flat_map (line_shapes scene.now.view.factor points) styles.now)) }
{
    for style in styles {
        paint_by_style(canvas, scene, parts, style)?;
    }
    Ok(())
}

// Paints the line along the parts by one style, where it has a colour. On a fine picture it is round.
fn paint_by_style(
    canvas: &mut Canvas,
    scene: &Scene<'_>,
    parts: &[Part],
    style: &Style,
) -> Result<(), AllocError>
    requires width { canvas.old.width ≡ scene.now.view.width }
    requires height { canvas.old.height ≡ scene.now.view.height }
    ensures { OnOk result (IsPainted canvas.old canvas.new (line_shapes scene.now.view.factor (points_of scene.now.view parts.now) style.now)) }
{
    let style = style.get();
    let Some(colour) = style.colour else {
        return Ok(());
    };
    if scene.factor().times() > 1 {
        let pen = RoundPen::of_map(canvas, scene, style.width, colour)?;
        return paint_round_line(canvas, pen, parts, false);
    }
    let pen = Pen::of_map(canvas, scene, style.width, colour);
    paint_along_parts(canvas, &pen, parts, false)
}
