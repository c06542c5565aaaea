ghost use Rattle.std.specs.Prelude.{◌≡◌, ◌<◌, ◌+◌, All, IfOk, OnOk, length, map, pos};
ghost use Rattle.std.specs.List.{flat_map};
ghost use Rattle.geom.specs.Device.{pixel_of};
ghost use Rattle.labelcache.specs.Candidate.{IsTextCorner};
ghost use Rattle.moves.specs.Moves.{pixel_from};
ghost use Rattle.viewport.specs.View.{whole_of};
ghost use Rattle.canvas.specs.Painted.{IsPainted};
ghost use Rattle.compose.specs.Blocks.{IsBlockOf, corner_of, label_from, whole_colour};
ghost use Rattle.compose.specs.Labels.{candidate_list, candidate_shapes, ink_list, label_shapes};
ghost use Rattle.compose.specs.Sides.{block_columns, block_rows};

use crate::drawing::Drawing;
use crate::ink::{paint_text, reach_of};
use crate::labels::Labels;
use crate::paint::{PictureQuery, draw_chosen};
use crate::reach::{Sides, may_show};
use canvas::Canvas;
use geom::Pixel;
use labelcache::{Cache, Candidate, Placed};
use mapdefs::{Font, Near};
use scene::Scene;
use std::alloc::AllocError;
use viewport::View;

/// The block of a whole picture that the canvas of a scene is: the chosen layers over the background, and then the labels of
/// the whole picture. No candidates are collected on the block.
pub fn draw_block<N: Near>(
    scene: &Scene<'_>,
    near: &N,
    asked: &PictureQuery<'_>,
    labels: &Labels<'_>,
) -> Result<Canvas, AllocError>
    requires near { N.map_of near.now ≡ scene.now.map }
    requires layers { All (λ index. index < length scene.now.map.layers) asked.now.chosen.now }
    requires candidates { labels.now.candidates ≡ candidate_list (whole_of scene.now.view) scene.now.scale scene.now.map asked.now.chosen.now }
    ensures { let view = scene.now.view in
        IfOk result (IsBlockOf (whole_colour scene.now.map (whole_of view) scene.now.scale asked.now.chosen.now asked.now.background labels.now.placed)
        (block_columns view) (block_rows view)) }
{
    let mut drawing = Drawing::new(labels.alloc(), scene, asked.background, None)?;
    draw_chosen(&mut drawing, scene, near, asked.chosen)?;
    let mut canvas = drawing.into_canvas();
    paint_whole_labels(&mut canvas, scene, labels)?;
    Ok(canvas)
}

// Paints the labels of the whole picture.
fn paint_whole_labels(
    canvas: &mut Canvas,
    scene: &Scene<'_>,
    labels: &Labels<'_>,
) -> Result<(), AllocError>
    ensures { OnOk result (IsPainted canvas.old canvas.new
        (ink_list scene.now.map.fonts labels.now.candidates (map (label_from (corner_of scene.now.view)) labels.now.placed))) }
{
    paint_moved(canvas, scene.fonts(), labels, scene.projection().view())
}

// Paints the labels of the whole picture of a view, in the order in which they were placed.
fn paint_moved(
    canvas: &mut Canvas,
    fonts: &[Font],
    labels: &Labels<'_>,
    view: View,
) -> Result<(), AllocError>
    ensures { OnOk result (IsPainted canvas.old canvas.new
        (flat_map (label_shapes fonts.now labels.now.candidates) (map (label_from (corner_of view)) labels.now.placed))) }
{
    for label in labels.placed() {
        paint_shown(canvas, fonts, labels.candidates(), moved(*label, view))?;
    }
    Ok(())
}

// Paints a label, unless all of it lies too far from the canvas to show there.
fn paint_shown(
    canvas: &mut Canvas,
    fonts: &[Font],
    labels: &Cache<'_>,
    label: Placed,
) -> Result<(), AllocError>
    ensures { OnOk result (IsPainted canvas.old canvas.new (label_shapes fonts.now labels.now label)) }
{
    match labels.candidate(label.number) {
        Some(candidate) => paint_where_shown(canvas, fonts, candidate, label.at),
        None => Ok(()),
    }
}

// Paints a candidate's text with its corner at a pixel, unless all of it lies too far from the canvas to show there.
fn paint_where_shown(
    canvas: &mut Canvas,
    fonts: &[Font],
    candidate: &Candidate<'_>,
    at: Pixel,
) -> Result<(), AllocError>
    ensures { OnOk result (IsPainted canvas.old canvas.new (candidate_shapes fonts.now candidate.now at)) }
{
    let Some(font) = candidate.label().font_in(fonts) else {
        return Ok(());
    };
    let sides = Sides {
        width: canvas.width(),
        height: canvas.height(),
    };
    if !may_show(font, reach_of(candidate), at, sides) {
        return Ok(());
    }
    paint_text(canvas, font, candidate, at)
}

// A label that is placed on the whole picture of a view, as it lies from the canvas's first pixel.
fn moved(label: Placed, view: View) -> Placed
    requires { IsTextCorner label.at }
    ensures { result ≡ label_from (corner_of view) label }
{
    let (left, top) = (i64::from(view.left()), i64::from(view.top()));
    Placed {
        at: Pixel::new(label.at.i() - left, label.at.j() - top),
        ..label
    }
}
