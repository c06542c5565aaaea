ghost use Rattle.std.specs.Prelude.{◌≡◌, ◌<◌, ◌*◌, All, IfOk, OnOk, length};
ghost use Rattle.std.specs.List.{flat_map};
ghost use Rattle.compose.specs.Drawn.{IsDrawn, IsMentioned};
ghost use Rattle.canvas.specs.Painted.{IsPainted};
ghost use Rattle.compose.specs.Picture.{IsPictureOf};
ghost use Rattle.compose.specs.Walk.{given_at, classified_chosen, classified_feature, classified_list, classified_shapes};

use crate::classified_feature::ClassifiedFeature;
use crate::drawing::Drawing;
use crate::label::collect_candidate;
use crate::labelled_layer::collect_layer;
use crate::layer_classes::LayerClasses;
use crate::margin::margin_of;
use crate::polygon::paint_polygon;
use canvas::Canvas;
use inking::{paint_lines, paint_points};
use labelcache::Cache;
use mapdefs::{FeatureFields, Geometry, LayerFields, Map, Near, Picture, Rgb};
use scaledenom::Scale;
use scene::Scene;
use std::alloc::{AllocError, Global};
use viewport::View;

/// A query of a picture.
#[derive(Clone, Copy)]
pub struct PictureQuery<'a> {
    /// The indices of the chosen layers in the map, in the order in which they are painted.
    pub chosen: &'a [usize],
    /// The colour where nothing is painted, which may be none.
    pub background: Option<Rgb>,
}

/// The picture of the chosen layers of a scene. They are painted
/// in that order, a layer that is chosen twice also twice, and whether they are switched on or not. Layers
/// and classes that aren't visible at the scale are left out. Where nothing is painted the picture has the
/// background, which may be none. The labels of the classified features are placed and painted after
/// everything else, if the map has a font.
///
/// A layer that is chosen several times is painted at its last mention alone, which gives the same picture
/// (`laws::last_mentions_paint_all`). Its candidates for labels are added at each.
///
/// The features that may be seen are those that `near` finds in the view and so many pixels round it as the
/// layer's styles paint from a point at most. The picture and its labels are the same whatever else it finds.
///
/// It takes memory for the picture, for what `near` finds of a layer, and for one feature at a time: for the edges of a
/// polygon whose rows have too many flips, and for a row. From the first polygon on it takes memory for a table of the
/// rows' latitudes and for the flips of a polygon's rows, which are kept until the picture is done. For labels it takes
/// memory for the candidates, which borrow their texts; where there is a candidate, for the labels, for the indices that
/// tests query, and for the glyphs of one text at a time. `AllocError` comes only where this is refused.
pub fn draw<N: Near>(
    alloc: Global,
    scene: &Scene<'_>,
    near: &N,
    asked: &PictureQuery<'_>,
) -> Result<Picture, AllocError>
    requires near { N.map_of near.now ≡ scene.now.map }
    requires layers { All (λ index. index < length scene.now.map.layers) asked.now.chosen.now }
    ensures { IfOk result (IsPictureOf scene.now.map scene.now.view scene.now.scale asked.now.chosen.now asked.now.background) }
{
    let labels = Some(Cache::new(alloc));
    let mut drawing = Drawing::new(alloc, scene, asked.background, labels)?;
    draw_chosen(&mut drawing, scene, near, asked.chosen)?;
    Ok(drawing.into_labelled(scene)?.into_picture())
}

/// Draws the chosen layers of a scene, and adds the candidates for their labels where they are collected. The canvas is as
/// wide and as high as the scene's picture.
pub fn draw_chosen<'a, N: Near>(
    drawing: &mut Drawing<'a>,
    scene: &Scene<'a>,
    near: &N,
    chosen: &[usize],
) -> Result<(), AllocError>
    requires near { N.map_of near.now ≡ scene.now.map }
    requires layers { All (λ index. index < length scene.now.map.layers) chosen.now }
    requires width { drawing.old.canvas.width ≡ scene.now.view.width }
    requires height { drawing.old.canvas.height ≡ scene.now.view.height }
    requires area { length drawing.old.canvas.pixels ≡ drawing.old.canvas.width * drawing.old.canvas.height }
    ensures { OnOk result (IsDrawn scene.now drawing.old drawing.new (classified_list scene.now.scale scene.now.map chosen.now)) }
{
    let mut rest = chosen;
    while let Some((index, after)) = rest.split_first() {
        let mention = Mention {
            index: *index,
            after,
        };
        draw_mention(drawing, scene, near, &mention)?;
        rest = after;
    }
    Ok(())
}

/// The picture that `draw` gives in the scene of a map in a view, at a scale.
pub fn picture<N: Near>(
    alloc: Global,
    map: &Map,
    near: &N,
    view: View,
    scale: Scale,
    chosen: &[usize],
    background: Option<Rgb>,
) -> Result<Picture, AllocError>
    requires near { N.map_of near.now ≡ map.now }
    requires layers { All (λ index. index < length map.now.layers) chosen.now }
    ensures { IfOk result (IsPictureOf map.now view scale chosen.now background) }
{
    let asked = PictureQuery { chosen, background };
    draw(alloc, &Scene::new(map, view, scale), near, &asked)
}

// The mention of a layer among those that are chosen: its index in the map, and the layers that are chosen after it.
#[derive(Clone, Copy)]
struct Mention<'a> {
    index: usize,
    after: &'a [usize],
}

// Draws the layer of a mention. If the layer is chosen again after it, only its candidates are added, where they are
// collected.
fn draw_mention<'a, N: Near>(
    drawing: &mut Drawing<'a>,
    scene: &Scene<'a>,
    near: &N,
    mention: &Mention<'_>,
) -> Result<(), AllocError>
    requires near { N.map_of near.now ≡ scene.now.map }
    requires index { mention.now.index < length scene.now.map.layers }
    requires width { drawing.old.canvas.width ≡ scene.now.view.width }
    requires height { drawing.old.canvas.height ≡ scene.now.view.height }
    requires area { length drawing.old.canvas.pixels ≡ drawing.old.canvas.width * drawing.old.canvas.height }
    ensures { OnOk result (IsMentioned scene.now mention.now.index mention.now.after.now drawing.old drawing.new) }
{
    if mention.after.contains(&mention.index) {
        return collect_layer(&mut drawing.labels, scene, near, mention.index);
    }
    draw_layer(drawing, scene, near, mention.index)
}

// Draws the layer at an index, where it shows at the scale.
fn draw_layer<'a, N: Near>(
    drawing: &mut Drawing<'a>,
    scene: &Scene<'a>,
    near: &N,
    index: usize,
) -> Result<(), AllocError>
    requires near { N.map_of near.now ≡ scene.now.map }
    requires index { index < length scene.now.map.layers }
    requires width { drawing.old.canvas.width ≡ scene.now.view.width }
    requires height { drawing.old.canvas.height ≡ scene.now.view.height }
    requires area { length drawing.old.canvas.pixels ≡ drawing.old.canvas.width * drawing.old.canvas.height }
    ensures { OnOk result (IsDrawn scene.now drawing.old drawing.new (classified_chosen scene.now.scale scene.now.map index)) }
{
    let layer = scene.layer(index);
    if !scene.shows(layer) {
        return Ok(());
    }
    let margin = margin_of(scene.factor(), scene.symbols(), layer);
    let found = near.candidates(index, scene.window(margin))?;
    draw_features(drawing, scene, layer, &found)
}

// Draws the features at those indices in the layer, in order.
fn draw_features<'a>(
    drawing: &mut Drawing<'a>,
    scene: &Scene<'_>,
    layer: &'a LayerFields,
    found: &[u32],
) -> Result<(), AllocError>
    requires indices { All (λ k. k < length layer.now.features) found.now }
    requires width { drawing.old.canvas.width ≡ scene.now.view.width }
    requires height { drawing.old.canvas.height ≡ scene.now.view.height }
    ensures { OnOk result
        (IsDrawn scene.now drawing.old drawing.new (flat_map (given_at (classified_feature scene.now.scale layer.now) layer.now.features) found.now)) }
{
    let classes = LayerClasses::new(layer);
    let features = layer.features.as_slice();
    for index in found {
        draw_feature(drawing, scene, &classes, features[*index as usize].get())?;
    }
    Ok(())
}

// Draws a feature of the layer by its class, if it has one at the scale: paints it, and adds its candidate where
// candidates are collected.
fn draw_feature<'a>(
    drawing: &mut Drawing<'a>,
    scene: &Scene<'_>,
    classes: &LayerClasses<'a>,
    feature: &'a FeatureFields,
) -> Result<(), AllocError>
    requires width { drawing.old.canvas.width ≡ scene.now.view.width }
    requires height { drawing.old.canvas.height ≡ scene.now.view.height }
    ensures { OnOk result (IsDrawn scene.now drawing.old drawing.new (classified_feature scene.now.scale classes.now feature.now)) }
{
    let Some(class) = classes.class_of(scene, feature) else {
        return Ok(());
    };
    let classified = ClassifiedFeature::new(classes.layer(), feature, class);
    paint_feature(&mut drawing.canvas, scene, &classified)?;
    collect_candidate(&mut drawing.labels, scene, &classified)
}

// Paints a classified feature.
fn paint_feature(
    canvas: &mut Canvas,
    scene: &Scene<'_>,
    classified: &ClassifiedFeature<'_>,
) -> Result<(), AllocError>
    requires width { canvas.old.width ≡ scene.now.view.width }
    requires height { canvas.old.height ≡ scene.now.view.height }
    ensures { OnOk result (IsPainted canvas.old canvas.new (classified_shapes scene.now.view scene.now.map.symbols classified.now)) }
{
    let parts = classified.feature().parts.as_slice();
    let styles = classified.class().styles.as_slice();
    match classified.layer().kind {
        Geometry::Polygon => paint_polygon(canvas, scene, parts, styles),
        Geometry::Line => paint_lines(canvas, scene, parts, styles),
        Geometry::Point => {
            paint_points(canvas, scene, parts, styles);
            Ok(())
        }
    }
}
