ghost use Rattle.std.specs.Prelude.{◌≡◌, ◌++◌, ◌∷◌, ◌^◌, [], map, not, IfOk, OnOk};
ghost use Rattle.geom.specs.EvenOdd.{edge_between, edges, ring_edges};
ghost use Rattle.geom.specs.Range.{IsBelow};
ghost use Rattle.geom.specs.World.{IsExtent};
ghost use Rattle.viewport.specs.View.{device_point, points_of};
ghost use Rattle.vertices.specs.Chain.{HasChain};
ghost use Rattle.featureinfo.specs.FewEdges.{CoverAlike, edges_along, row_from};
ghost use Rattle.featureinfo.specs.Reach.{box_reaches, limit_of};

use crate::nearby::Nearby;
use crate::reach::{box_reaches, limit_of};
use crate::side::Side;
use geom::{Device, Edge, World};
use mapdefs::{BlockBox, Part, split_block};
use scanfill::Polygon;
use std::alloc::{AllocError, Global};
use vertices::{Block, last_of};
use viewport::Projection;

/// The pixels that are near the queried one, and the projection of their picture.
#[derive(Clone, Copy)]
pub struct NearPixels<'a> {
    pub projection: &'a Projection,
    pub nearby: Nearby,
}

/// A polygon that covers the same near pixels as the rings do. It has the edges of the blocks round these pixels, and one
/// edge for a block left of them. It takes memory for these edges.
pub fn near_polygon(
    alloc: Global,
    near: &NearPixels<'_>,
    rings: &[Part],
) -> Result<Polygon, AllocError>
    ensures { IfOk result (λ polygon.
        CoverAlike near.now.nearby polygon (edges (points_of near.now.projection.now rings.now))) }
{
    let mut edges = Vec::new(alloc);
    for ring in rings {
        add_ring(&mut edges, near, ring)?;
    }
    Ok(Polygon::of(edges))
}

// Adds edges that cover the same near pixels as those of a ring.
fn add_ring(edges: &mut Vec<Edge>, near: &NearPixels<'_>, ring: &Part) -> Result<(), AllocError>
    ensures { OnOk result
        (CoverAlike near.now.nearby edges.new.items
        (edges.old.items ++ ring_edges (map (device_point near.now.projection.now) ring.now))) }
{
    let Some((first, rest)) = ring.as_slice().split_first() else {
        return Ok(());
    };
    let mut from = *first;
    let mut left = rest;
    for area in ring.boxes() {
        let (vertices, behind) = split_block(left);
        let block = Block {
            area: *area,
            vertices,
        };
        add_block(edges, near, from, &block)?;
        from = last_of(from, vertices);
        left = behind;
    }
    let last = near.projection.device(from);
    add_edge(edges, near.nearby, last, near.projection.device(*first))?;
    Ok(())
}

// Adds edges that cover the same near pixels as those of a block, which are none if its box lies below, above or right of
// these pixels, and its chord if it lies left of them.
fn add_block(
    edges: &mut Vec<Edge>,
    near: &NearPixels<'_>,
    from: World,
    block: &Block<'_>,
) -> Result<(), AllocError>
    requires { HasChain block.now.area from block.now.vertices.now }
    ensures { OnOk result
        (CoverAlike near.now.nearby edges.new.items
        (edges.old.items ++ edges_along near.now.projection.now from block.now.vertices.now)) }
{
    if is_beyond(near, block.area, Side::Right) {
        return Ok(());
    }
    if is_beyond(near, block.area, Side::Bottom) {
        return Ok(());
    }
    if is_beyond(near, block.area, Side::Top) {
        return Ok(());
    }
    if is_beyond(near, block.area, Side::Left) {
        let last = near.projection.device(last_of(from, block.vertices));
        add_edge(edges, near.nearby, near.projection.device(from), last)?;
        return Ok(());
    }
    add_vertices(edges, near, from, block.vertices)
}

// Whether a box lies as a whole beyond a side of the near pixels.
fn is_beyond(near: &NearPixels<'_>, area: BlockBox, side: Side) -> bool
    ensures value { result ≡ not (box_reaches near.now.projection.now area (limit_of near.now.nearby side) side) }
    ensures limits { IsExtent near.now.projection.now.area }
{
    !box_reaches(near.projection, area, limit_of(near.nearby, side), side)
}

// Adds edges that cover what those from a vertex over some others do.
fn add_vertices(
    edges: &mut Vec<Edge>,
    near: &NearPixels<'_>,
    from: World,
    vertices: &[World],
) -> Result<(), AllocError>
    ensures { OnOk result
        (CoverAlike near.now.nearby edges.new.items
        (edges.old.items ++ edges_along near.now.projection.now from vertices.now)) }
{
    let mut at = near.projection.device(from);
    for to in vertices {
        let next = near.projection.device(*to);
        add_edge(edges, near.nearby, at, next)?;
        at = next;
    }
    Ok(())
}

// Adds the edge from one vertex to another. An edge that crosses no near row is skipped.
fn add_edge(
    edges: &mut Vec<Edge>,
    nearby: Nearby,
    from: Device,
    to: Device,
) -> Result<(), AllocError>
    ensures { OnOk result (CoverAlike nearby edges.new.items (edges.old.items ++ edge_between (from, to) ∷ [])) }
{
    if row_from(nearby, from.y()) == row_from(nearby, to.y()) {
        return Ok(());
    }
    edges.push(Edge::new(from, to))?;
    Ok(())
}

// The first of the near rows whose pixel centres lie at that height or below it, or the row after them.
#[tactic(auto, unfolding(crate::specs::FewEdges::row_from))]
fn row_from(nearby: Nearby, y: i64) -> i64
    requires { IsBelow (2 ^ 47) y }
    ensures { result ≡ row_from nearby y }
{
    (y + 7)
        .div_euclid(16)
        .max(i64::from(nearby.top))
        .min(i64::from(nearby.bottom))
}
