ghost use Rattle.std.specs.Prelude.{◌≡◌, ◌↔◌, ◌<◌, ◌≤◌, All, IfOk, IsTrue, length, true};
ghost use Rattle.std.specs.List.Sorted.{IsStrictlyIncreasing};
ghost use Rattle.geom.specs.declared.side.TheConstants.{MAX_PICTURE_SIDE};
ghost use Rattle.scene.specs.Classes.{is_visible_layer};
ghost use Rattle.mapdefs.specs.declared.layer.Geometry.TheVariants.{Line as LineKind, Polygon as PolygonKind};
ghost use Rattle.featureinfo.specs.Hits.{AreFirstAmong, AreHitsOf, IsClassedNear, IsHitAt, covers_plainly};
ghost use Rattle.featureinfo.specs.Nearby.{SomeNear, part_near, points_near};

use crate::few_edges::{NearPixels, near_polygon};
use crate::nearby::Nearby;
use crate::reach::is_far;
use geom::World;
use mapdefs::{FeatureFields, Geometry, Items, LayerFields, Map, Near, Part, Shared};
use scaledenom::Scale;
use scene::Scene;
use std::alloc::{AllocError, Global};
use strokes::Line;
use viewport::{Projection, View};

/// A query of a layer of a picture: the layer, a pixel, and the most hits.
#[derive(Clone, Copy)]
pub struct LayerQuery {
    /// The index of the layer in the map.
    pub layer: usize,
    /// The column of the pixel, counted from 0.
    pub column: u16,
    /// The row of the pixel, counted from 0.
    pub row: u16,
    /// The most hits.
    pub count: u32,
}

/// The hits of a layer.
#[derive(Drop)]
pub struct LayerHits {
    /// The index of the layer in the map.
    pub layer: usize,
    /// The indices of the features that were hit, in order. The hits of a layer that is queried several times share
    /// them.
    pub features: Shared<Items<u32>>,
}

// Whether a point of a part has its pixel among the near ones.
fn part_near(projection: &Projection, part: &[World], nearby: Nearby) -> bool
    ensures { result ≡ part_near projection.now part.now nearby }
{
    part.iter()
        .any(|place| nearby.has(projection.pixel(*place)))
}

// Whether a point of the parts has its pixel among the near ones.
fn points_near(projection: &Projection, parts: &[Part], nearby: Nearby) -> bool
    ensures { result ≡ points_near projection.now parts.now nearby }
{
    parts
        .iter()
        .any(|part| part_near(projection, part.as_slice(), nearby))
}

// Whether the plain cover of a polygon has one of the near pixels. It is tested by its rows.
fn polygon_near(
    alloc: Global,
    scene: &Scene<'_>,
    parts: &[Part],
    nearby: Nearby,
) -> Result<bool, AllocError>
    requires some { nearby.left < nearby.right }
    requires width { nearby.right ≤ scene.now.view.width }
    requires height { nearby.bottom ≤ MAX_PICTURE_SIDE }
    ensures { IfOk result (λ hit. IsTrue hit ↔ SomeNear nearby (covers_plainly scene.now.view PolygonKind parts.now)) }
{
    let near = NearPixels {
        projection: scene.projection(),
        nearby,
    };
    let polygon = near_polygon(alloc, &near, parts)?;
    nearby.meets_cover(alloc, &polygon, near.projection.width())
}

// Whether the plain cover of a line has one of the near pixels.
fn line_near(
    alloc: Global,
    scene: &Scene<'_>,
    parts: &[Part],
    nearby: Nearby,
) -> Result<bool, AllocError>
    requires some { nearby.left < nearby.right }
    requires width { nearby.right ≤ scene.now.view.width }
    requires height { nearby.bottom ≤ MAX_PICTURE_SIDE }
    ensures { IfOk result (λ hit. IsTrue hit ↔ SomeNear nearby (covers_plainly scene.now.view LineKind parts.now)) }
{
    let lines = scene.points_of(alloc, parts)?;
    let line = Line::new(alloc, &lines, false, 1)?;
    nearby.meets_cover(alloc, &line, scene.projection().width())
}

// A scene, and the pixels of its picture that are near the queried one.
#[derive(Clone, Copy)]
struct QueriedScene<'a, 'm> {
    scene: &'a Scene<'m>,
    nearby: Nearby,
}

// Whether the plain cover of a feature has one of the near pixels.
fn covers_near(
    alloc: Global,
    queried: &QueriedScene<'_, '_>,
    kind: Geometry,
    parts: &[Part],
) -> Result<bool, AllocError>
    requires some { queried.now.nearby.left < queried.now.nearby.right }
    requires width { queried.now.nearby.right ≤ queried.now.scene.now.view.width }
    requires height { queried.now.nearby.bottom ≤ MAX_PICTURE_SIDE }
    ensures { IfOk result (λ hit. IsTrue hit ↔ SomeNear queried.now.nearby (covers_plainly queried.now.scene.now.view kind parts.now)) }
{
    let QueriedScene { scene, nearby } = *queried;
    match kind {
        Geometry::Polygon => polygon_near(alloc, scene, parts, nearby),
        Geometry::Line => line_near(alloc, scene, parts, nearby),
        Geometry::Point => Ok(points_near(scene.projection(), parts, nearby)),
    }
}

// Whether a feature of the layer has a class and lies near the pixels. A far feature gets no search for its class
// and no cover.
fn is_classed_near(
    alloc: Global,
    queried: &QueriedScene<'_, '_>,
    layer: &LayerFields,
    feature: &FeatureFields,
) -> Result<bool, AllocError>
    requires some { queried.now.nearby.left < queried.now.nearby.right }
    requires width { queried.now.nearby.right ≤ queried.now.scene.now.view.width }
    requires height { queried.now.nearby.bottom ≤ MAX_PICTURE_SIDE }
    ensures { IfOk result (λ hit. IsTrue hit ↔ IsClassedNear queried.now.scene.now layer.now queried.now.nearby feature.now) }
{
    let QueriedScene { scene, nearby } = *queried;
    let parts = feature.parts.as_slice();
    if is_far(scene.projection(), parts, nearby) {
        return Ok(false);
    }
    if scene.class_of(layer, feature).is_none() {
        return Ok(false);
    }
    covers_near(alloc, queried, layer.kind, parts)
}

// The first so many of the candidates that are hit.
fn first_hits(
    scene: &Scene<'_>,
    layer: &LayerFields,
    found: &Vec<u32>,
    asked: LayerQuery,
) -> Result<Items<u32>, AllocError>
    requires shows { is_visible_layer scene.now.scale layer.now ≡ true }
    requires indices { All (λ k. k < length layer.now.features) found.now.items }
    requires rising { IsStrictlyIncreasing found.now.items }
    requires column { asked.column < scene.now.view.width }
    requires row { asked.row < scene.now.view.height }
    ensures { IfOk result (AreFirstAmong (IsHitAt scene.now layer.now asked.column asked.row) asked.count found.now.items) }
{
    let alloc = *found.allocator();
    let projection = scene.projection();
    let nearby = Nearby::of(projection, asked.column, asked.row, layer.tolerance);
    let queried = QueriedScene { scene, nearby };
    let features = layer.features.as_slice();
    let mut hits = Vec::new(alloc);
    for index in found {
        if hits.len() >= asked.count as usize {
            return Ok(Items::of(hits));
        }
        let feature = features[*index as usize].get();
        if is_classed_near(alloc, &queried, layer, feature)? {
            hits.push(*index)?;
        }
    }
    Ok(Items::of(hits))
}

/// The first features of a layer that are hit near a pixel of a scene's picture, by their indices. A feature is hit
/// where its layer shows at the scale, it has a class, and its plain cover has a pixel of the picture within the layer's
/// tolerance of both the column and the row.
///
/// The features that may be hit are those that `near` finds in the view and a pixel more than the tolerance round
/// it. The hits are the same whatever else it finds.
///
/// It takes memory for what `near` finds, for the hits, and for one feature at a time. `AllocError` comes only where this
/// memory is refused.
pub fn hits_in<N: Near>(
    alloc: Global,
    scene: &Scene<'_>,
    near: &N,
    asked: LayerQuery,
) -> Result<Items<u32>, AllocError>
    requires near { N.map_of near.now ≡ scene.now.map }
    requires layer { asked.layer < length scene.now.map.layers }
    requires column { asked.column < scene.now.view.width }
    requires row { asked.row < scene.now.view.height }
    ensures { IfOk result (AreHitsOf scene.now asked.layer asked.column asked.row asked.count) }
{
    let fields = scene.layer(asked.layer);
    if !scene.shows(fields) {
        return Ok(Items::new(alloc));
    }
    let margin = u16::from(fields.tolerance) + 1;
    let found = near.candidates(asked.layer, scene.window(margin))?;
    first_hits(scene, fields, &found, asked)
}

/// The hits that `hits_in` gives in the scene of a map in a view, at a scale.
pub fn hits<N: Near>(
    alloc: Global,
    map: &Map,
    near: &N,
    view: View,
    scale: Scale,
    asked: LayerQuery,
) -> Result<Items<u32>, AllocError>
    requires near { N.map_of near.now ≡ map.now }
    requires layer { asked.layer < length map.now.layers }
    requires column { asked.column < view.width }
    requires row { asked.row < view.height }
    ensures { IfOk result (AreHitsOf (record { map = map.now; view = view; scale = scale }) asked.layer asked.column asked.row asked.count) }
{
    hits_in(alloc, &Scene::new(map, view, scale), near, asked)
}
