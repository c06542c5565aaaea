ghost use Rattle.std.specs.Prelude.{◌≡◌, ◌^◌, ◌&&◌, pos, int_le, int_lt, IfSome, IsTrue};
ghost use Rattle.geom.specs.Range.{IsBelow};
ghost use Rattle.labelcache.specs.Candidate.{IsAnchor};
ghost use Rattle.mapdefs.specs.declared.layer.Geometry.TheVariants as kind;
ghost use Rattle.compose.specs.Anchor.{anchor_on, anchor_place, halfway, is_shown, shown_anchor, shown_pixel};

use crate::label_scene::LabelScene;
use geom::{Coordinate, Micro, Pixel, World};
use mapdefs::{FeatureFields, Geometry};

// The middle between two coordinates, halved downwards.
fn halfway(a: Coordinate, b: Coordinate) -> Coordinate
    ensures { result ≡ halfway a b }
{
    let sum = a.get().millionths() + b.get().millionths();
    Coordinate::new(Micro::new(sum.div_euclid(2)))
}

// The middle of the box of some places, if there are any.
fn middle_of(ring: &[World]) -> Option<World>
    ensures { result ≡ anchor_on kind.Polygon ring.now }
{
    let [first, rest @ ..] = ring else {
        return None;
    };
    let (mut west, mut east) = (first.x(), first.x());
    let (mut south, mut north) = (first.y(), first.y());
    for place in rest {
        west = west.min(place.x());
        east = east.max(place.x());
        south = south.min(place.y());
        north = north.max(place.y());
    }
    Some(World::new(halfway(west, east), halfway(south, north)))
}

// Where a part of a feature has its anchor: points at the first one, a line at the vertex in its middle, a ring in the
// middle of its box.
fn anchor_on(kind: Geometry, part: &[World]) -> Option<World>
    ensures { result ≡ anchor_on kind part.now }
{
    match kind {
        Geometry::Point => part.first().copied(),
        Geometry::Line => part.get(part.len() / 2).copied(),
        Geometry::Polygon => middle_of(part),
    }
}

// Where a feature has its anchor: on its first part.
fn anchor_place(kind: Geometry, feature: &FeatureFields) -> Option<World>
    ensures { result ≡ anchor_place kind feature.now }
{
    match feature.parts.as_slice().first() {
        Some(part) => anchor_on(kind, part.as_slice()),
        None => None,
    }
}

// Whether an index is that of one of so many columns or rows.
fn is_among(side: u16, index: i64) -> bool
    ensures value { result ≡ (int_le (pos 0) index && int_lt index (pos side)) }
    ensures limits { IsTrue result → IsBelow (2 ^ 32) index }
{
    0 <= index && index < i64::from(side)
}

// Whether a pixel lies where labels are placed.
fn is_shown(scene: &LabelScene<'_, '_>, pixel: Pixel) -> bool
    ensures value { result ≡ is_shown scene.now.view pixel }
    ensures limits { IsTrue result → IsAnchor pixel }
{
    is_among(scene.columns(), pixel.i()) && is_among(scene.rows(), pixel.j())
}

// The pixel that a place lies in, where labels are placed on that pixel.
fn shown_pixel(scene: &LabelScene<'_, '_>, place: World) -> Option<Pixel>
    ensures value { result ≡ shown_pixel scene.now.view place }
    ensures limits { IfSome result IsAnchor }
{
    let pixel = scene.pixel(place);
    if is_shown(scene, pixel) {
        Some(pixel)
    } else {
        None
    }
}

/// The pixel of a feature's anchor, where it has one and labels are placed on that pixel.
pub fn shown_anchor(
    scene: &LabelScene<'_, '_>,
    kind: Geometry,
    feature: &FeatureFields,
) -> Option<Pixel>
    ensures value { result ≡ shown_anchor scene.now.view kind feature.now }
    ensures limits { IfSome result IsAnchor }
{
    match anchor_place(kind, feature) {
        Some(place) => shown_pixel(scene, place),
        None => None,
    }
}
