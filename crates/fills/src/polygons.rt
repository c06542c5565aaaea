ghost use Rattle.std.specs.Prelude.{◌≡◌, [], ◌∷◌, OnOk, OnErr};
ghost use Rattle.viewport.specs.View.{points_of};
ghost use Rattle.canvas.specs.Painted.{IsPainted};
ghost use Rattle.canvas.specs.Shapes.{Fill, fills};

use crate::flip_fill::fill_flips;
use crate::ring_flips::add_rings;
use crate::run::RowFinder;
use crate::sweep::fill_polygon;
use canvas::Canvas;
use mapdefs::{Part, Rgb, Style};
use scanfill::{FlipFault, Polygon};
use scene::Scene;
use std::alloc::AllocError;

/// Fills the rings of a polygon by a style, where it has a colour: by the flips of their edges, or by a sweep where these
/// are too many in all. The canvas is as wide and as high as the scene's picture. It takes memory for the table of the
/// rows' latitudes, once a picture, and for flips or for the edges of the sweep. Where memory is refused, some rows may be
/// filled already.
pub fn fill_rings(
    canvas: &mut Canvas,
    scene: &Scene<'_>,
    rings: &[Part],
    style: &Style,
) -> Result<(), AllocError>
    requires width { canvas.old.width ≡ scene.now.view.width }
    requires height { canvas.old.height ≡ scene.now.view.height }
    ensures { OnOk result (IsPainted canvas.old canvas.new (fills (points_of scene.now.view rings.now) style.now.colour)) }
{
    let Some(colour) = style.get().colour else {
        return Ok(());
    };
    match fill_by_flips(canvas, scene, rings, colour) {
        Ok(()) => Ok(()),
        Err(FlipFault::TooMany) => fill_by_sweep(canvas, scene, rings, colour),
        Err(FlipFault::NoMemory) => Err(AllocError),
    }
}

// Fills the rings by the flips of their edges. After an error the canvas is as it was.
fn fill_by_flips(
    canvas: &mut Canvas,
    scene: &Scene<'_>,
    rings: &[Part],
    colour: Rgb,
) -> Result<(), FlipFault>
    requires width { canvas.old.width ≡ scene.now.view.width }
    requires height { canvas.old.height ≡ scene.now.view.height }
    ensures ok { OnOk result (IsPainted canvas.old canvas.new (Fill (points_of scene.now.view rings.now) colour ∷ [])) }
    ensures err { OnErr result (canvas.new ≡ canvas.old) }
{
    if canvas.make_latitudes(scene.projection()).is_err() {
        return Err(FlipFault::NoMemory);
    }
    let mut flips = canvas.lend_flips();
    let rows = RowFinder::new(scene.projection(), canvas.latitudes());
    match add_rings(&mut flips, &rows, rings) {
        Ok(()) => {
            flips.sort();
            fill_flips(canvas, &flips, colour);
            canvas.return_flips(flips);
            Ok(())
        }
        Err(fault) => {
            canvas.return_flips(flips);
            Err(fault)
        }
    }
}

// Fills the rings by a sweep over all their edges.
fn fill_by_sweep(
    canvas: &mut Canvas,
    scene: &Scene<'_>,
    rings: &[Part],
    colour: Rgb,
) -> Result<(), AllocError>
    ensures { OnOk result (IsPainted canvas.old canvas.new (Fill (points_of scene.now.view rings.now) colour ∷ [])) }
{
    let rings = scene.points_of(canvas.alloc(), rings)?;
    let polygon = Polygon::new(canvas.alloc(), &rings)?;
    fill_polygon(canvas, &polygon, colour)
}
