ghost use Rattle.std.specs.Prelude.{◌≡◌, OnOk};
ghost use Rattle.std.specs.List.{flat_map};
ghost use Rattle.viewport.specs.View.{points_of};
ghost use Rattle.canvas.specs.Painted.{IsPainted};
ghost use Rattle.compose.specs.Paint.{polygon_shapes};

use canvas::Canvas;
use fills::fill_rings;
use inking::paint_outline;
use mapdefs::{Part, Style};
use scene::Scene;
use std::alloc::AllocError;

/// Paints a polygon of these rings by each style, in order: its rings, and then its outline. The canvas is as wide
/// and as high as the scene's picture.
pub fn paint_polygon(
    canvas: &mut Canvas,
    scene: &Scene<'_>,
    rings: &[Part],
    styles: &[Style],
) -> Result<(), AllocError>
    requires width { canvas.old.width ≡ scene.now.view.width }
    requires height { canvas.old.height ≡ scene.now.view.height }
    ensures { let points = points_of scene.now.view rings.now in
        OnOk result (IsPainted canvas.old canvas.new (flat_map (polygon_shapes scene.now.view.factor points) styles.now)) }
{
    for style in styles {
        fill_rings(canvas, scene, rings, style)?;
        paint_outline(canvas, scene, rings, style)?;
    }
    Ok(())
}
