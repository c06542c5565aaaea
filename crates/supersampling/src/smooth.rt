ghost use Rattle.std.specs.Prelude.{◌≡◌, ◌<◌, ◌*◌, All, IfOk, length};
ghost use Rattle.mapdefs.specs.contracts.expr.Expr as expr;
ghost use Rattle.std.specs.Coded.{codes};
ghost use Rattle.viewport.specs.View.{whole_of};
ghost use Rattle.compose.specs.Labels.{ArePlaced, candidate_list};
ghost use Rattle.supersampling.specs.Smooth.{IsSmoothPictureOf};

use crate::fine_picture::{FinePicture, MeanPicture};
use crate::fine_scene::FineScene;
use crate::means::Means;
use crate::tiles::draw_tiles;
use canvas::Canvas;
use compose::{Labels, PictureQuery, draw_block};
use geom::PictureSide;
use mapdefs::{Near, SmoothPicture};
use scene::Scene;
use std::alloc::{AllocError, Global};
use viewport::Stretch;

// A fine scene that is painted block by block: how features are found, what is asked for, and the labels of the whole
// picture.
#[derive(Drop)]
struct Painting<'p, N: Near> {
    scene: &'p FineScene<'p>,
    near: &'p N,
    asked: &'p PictureQuery<'p>,
    labels: &'p Labels<'p>,
    ghost near_is: { N.map_of near.now ≡ scene.now.map } by { Prim.hlevel (codes, expr.the_row.coded) },
    ghost layers: { All (λ index. index < length scene.now.map.layers) asked.now.chosen.now },
    ghost candidates: { labels.now.candidates ≡ candidate_list (whole_of scene.now.view) scene.now.scale scene.now.map asked.now.chosen.now },
}

impl<N: Near> FinePicture for Painting<'_, N> {
    ghost use Rattle.compose.specs.Blocks.{whole_colour};

    ghost colour = { λ s. whole_colour s.scene.now.map (whole_of s.scene.now.view) s.scene.now.scale s.asked.now.chosen.now s.asked.now.background s.labels.now.placed };

    ghost factor = { λ s. s.scene.now.view.factor };

    ghost columns = { λ s. s.scene.now.view.columns };

    ghost rows = { λ s. s.scene.now.view.rows };

    fn factor(&self) -> u8 {
        self.scene.fine().factor().times()
    }

    fn block(&self, across: Stretch, down: Stretch) -> Result<Canvas, AllocError> {
        let _sides = (across.count.pixels(), down.count.pixels());
        let scene = self.scene.block(across, down);
        draw_block(&scene, self.near, self.asked, self.labels)
    }
}

// The first pixel of a side.
fn first_pixel() -> Stretch
    ensures first { result.first ≡ 0 }
    ensures count { result.count ≡ 1 }
{
    Stretch {
        first: 0,
        count: PictureSide::with_last(0),
    }
}

/// The smoothed picture of the chosen layers of a fine scene: each pixel is the mean of as many columns and rows of the
/// fine picture as its factor says. Layers are chosen and painted as `draw` does. The labels are placed on the whole fine
/// picture.
///
/// It takes memory for the picture, for the candidates for labels and their placement, and for a block of the fine
/// picture at a time, as `draw` does for a picture of that size. `AllocError` comes only where this is refused.
pub fn smooth_picture<N: Near>(
    alloc: Global,
    scene: &FineScene<'_>,
    near: &N,
    asked: &PictureQuery<'_>,
) -> Result<SmoothPicture, AllocError>
    requires near { N.map_of near.now ≡ scene.now.map }
    requires layers { All (λ index. index < length scene.now.map.layers) asked.now.chosen.now }
    ensures { IfOk result (IsSmoothPictureOf scene.now.map (whole_of scene.now.view) scene.now.scale asked.now.chosen.now asked.now.background) }
{
    let fine = scene.fine();
    // so that each side of the fine picture has a pixel
    let _sides = (
        fine.factor().times(),
        fine.plain_columns().pixels(),
        fine.plain_rows().pixels(),
    );
    let corner = scene.block(first_pixel(), first_pixel());
    let labels = Labels::of_whole(alloc, &corner, near, asked.chosen)?;
    Ok(means_of(scene, near, asked, &labels)?.into_picture())
}

// The means of all pixels, with the labels of the whole picture.
fn means_of<N: Near>(
    scene: &FineScene<'_>,
    near: &N,
    asked: &PictureQuery<'_>,
    labels: &Labels<'_>,
) -> Result<Means, AllocError>
    requires near { N.map_of near.now ≡ scene.now.map }
    requires layers { All (λ index. index < length scene.now.map.layers) asked.now.chosen.now }
    requires candidates { labels.now.candidates ≡ candidate_list (whole_of scene.now.view) scene.now.scale scene.now.map asked.now.chosen.now }
    requires placed { ArePlaced (whole_of scene.now.view) scene.now.map.fonts labels.now.candidates labels.now.placed }
    ensures { IfOk result (IsSmoothPictureOf scene.now.map (whole_of scene.now.view) scene.now.scale asked.now.chosen.now asked.now.background) }
{
    let fine = scene.fine();
    let mut means = Means::new(labels.alloc(), fine.plain_columns(), fine.plain_rows())?;
    // whose contract says that the picture is within its limits
    let _width = means.width();
    let painting = Painting {
        scene,
        near,
        asked,
        labels,
    };
    draw_tiles(&painting, &mut means)?;
    Ok(means)
}
