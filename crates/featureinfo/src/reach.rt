ghost use Rattle.std.specs.Prelude.{◌≡◌};
ghost use Rattle.std.specs.List.{AllByRecursion};
ghost use Rattle.geom.specs.World.{HasPlace, IsExtent};
ghost use Rattle.featureinfo.specs.Reach.{box_reaches, limit_of, is_within, part_reaches, reaches, is_far};

use crate::nearby::Nearby;
use crate::side::Side;
use geom::{Device, World};
use mapdefs::{BlockBox, Part, split_block};
use vertices::Block;
use viewport::Projection;

/// Half a pixel beyond a side of the pixels, in sixteenths of a pixel.
pub fn limit_of(nearby: Nearby, side: Side) -> i64
    ensures { result ≡ limit_of nearby side }
{
    match side {
        Side::Right => 16 * i64::from(nearby.right) + 8,
        Side::Left => 16 * i64::from(nearby.left) - 8,
        Side::Bottom => 16 * i64::from(nearby.bottom) + 8,
        Side::Top => 16 * i64::from(nearby.top) - 8,
    }
}

// Whether a vertex doesn't lie beyond a limit on a side.
fn is_within(side: Side, limit: i64, vertex: Device) -> bool
    ensures { result ≡ is_within side limit vertex }
{
    match side {
        Side::Right => vertex.x() <= limit,
        Side::Left => limit <= vertex.x(),
        Side::Bottom => vertex.y() <= limit,
        Side::Top => limit <= vertex.y(),
    }
}

// Whether one of these vertices at least doesn't lie beyond that side. The search stops at the first that doesn't.
fn vertices_reach(projection: &Projection, vertices: &[World], limit: i64, side: Side) -> bool
    ensures { result ≡ part_reaches projection.now vertices.now limit side }
{
    vertices
        .iter()
        .any(|place| is_within(side, limit, projection.device(*place)))
}

/// Whether a box doesn't lie as a whole beyond that side.
pub fn box_reaches(projection: &Projection, area: BlockBox, limit: i64, side: Side) -> bool
    ensures value { result ≡ box_reaches projection.now area limit side }
    ensures limits { IsExtent projection.now.area }
{
    let _area = projection.area();
    match side {
        Side::Right => projection.across(area.minx()) <= limit,
        Side::Left => limit <= projection.across(area.maxx()),
        Side::Bottom => projection.down(area.maxy()) <= limit,
        Side::Top => limit <= projection.down(area.miny()),
    }
}

// Whether one of the vertices, which lie in the box, doesn't lie beyond that side. If the box does, none is tested.
fn block_reaches(projection: &Projection, block: &Block<'_>, limit: i64, side: Side) -> bool
    requires { AllByRecursion (HasPlace block.now.area) block.now.vertices.now }
    ensures { result ≡ part_reaches projection.now block.now.vertices.now limit side }
{
    box_reaches(projection, block.area, limit, side)
        && vertices_reach(projection, block.vertices, limit, side)
}

// Whether one vertex of a part at least doesn't lie beyond that side. A block is skipped if its box lies beyond it.
fn part_reaches(projection: &Projection, part: &Part, limit: i64, side: Side) -> bool
    ensures { result ≡ part_reaches projection.now part.now limit side }
{
    let mut left = part.as_slice();
    for area in part.boxes() {
        let (vertices, behind) = split_block(left);
        let block = Block {
            area: *area,
            vertices,
        };
        if block_reaches(projection, &block, limit, side) {
            return true;
        }
        left = behind;
    }
    vertices_reach(projection, left, limit, side)
}

// Whether one vertex of the parts at least doesn't lie beyond that side.
fn reaches(projection: &Projection, parts: &[Part], limit: i64, side: Side) -> bool
    ensures { result ≡ reaches projection.now parts.now limit side }
{
    parts
        .iter()
        .any(|part| part_reaches(projection, part, limit, side))
}

/// Whether all vertices of the parts lie beyond one side of the pixels.
pub fn is_far(projection: &Projection, parts: &[Part], nearby: Nearby) -> bool
    ensures { result ≡ is_far projection.now parts.now nearby }
{
    !(reaches(
        projection,
        parts,
        limit_of(nearby, Side::Right),
        Side::Right,
    ) && reaches(projection, parts, limit_of(nearby, Side::Left), Side::Left)
        && reaches(
            projection,
            parts,
            limit_of(nearby, Side::Bottom),
            Side::Bottom,
        )
        && reaches(projection, parts, limit_of(nearby, Side::Top), Side::Top))
}
