ghost use Rattle.std.specs.Prelude.{◌≡◌, OnOk};
ghost use Rattle.viewport.specs.View.{points_of};
ghost use Rattle.canvas.specs.Painted.{IsPainted};
ghost use Rattle.inking.specs.Styles.{outline_shapes};

use crate::pen::Pen;
use crate::round_pen::RoundPen;
use crate::round_stroke::paint_round_line;
use crate::stroke::paint_along_parts;
use canvas::Canvas;
use mapdefs::{Part, Style};
use scene::Scene;
use std::alloc::AllocError;

/// Paints the outline of the rings of a polygon by a style, where it has one: the closed line along each ring, as wide as
/// the style says, in the colour of the outline. On a fine picture it is round. The canvas is as wide and as high as the
/// scene's picture. It takes memory for the row of each segment that isn't small, and for the chords of a round line. Where memory is refused, some of it may be painted already.
pub fn paint_outline(
    canvas: &mut Canvas,
    scene: &Scene<'_>,
    rings: &[Part],
    style: &Style,
) -> Result<(), AllocError>
    requires width { canvas.old.width ≡ scene.now.view.width }
    requires height { canvas.old.height ≡ scene.now.view.height }
    ensures { OnOk result (IsPainted canvas.old canvas.new
        (outline_shapes scene.now.view.factor (points_of scene.now.view rings.now) style.now)) }
{
    let style = style.get();
    let Some(colour) = style.outline else {
        return Ok(());
    };
    if scene.factor().times() > 1 {
        let pen = RoundPen::of_map(canvas, scene, style.width, colour)?;
        return paint_round_line(canvas, pen, rings, true);
    }
    let pen = Pen::of_map(canvas, scene, style.width, colour);
    paint_along_parts(canvas, &pen, rings, true)
}
