ghost use Rattle.std.specs.Prelude.{◌≡◌, ℕ, ◌<◌, [], map, max, min, pos, IfOk, OnOk};
ghost use Rattle.geom.specs.Device.{pixel_centre};
ghost use Rattle.geom.specs.Edge.{crosses_at_or_left};
ghost use Rattle.geom.specs.EvenOdd.{edge_between, edges, ring_edges};
ghost use Rattle.geom.specs.Laws.{is_one_of};
ghost use Rattle.clip.specs.EdgeClass.{first_row};
ghost use Rattle.scanfill.specs.Flips.{is_pixel_flipped};
ghost use Rattle.viewport.specs.View.{device_point, points_of};
ghost use Rattle.vertices.specs.Chain.{HasChain, chain_end};
ghost use Rattle.fills.specs.Flipped.{AddsChain, Adds, AddsEdge, IsCorner, IsRun, StandFor};

use crate::run::{Corner, RowFinder, Run};
use clip::RowRange;
use geom::{Edge, World};
use mapdefs::{Part, split_block};
use scanfill::{FlipFault, Flips};
use vertices::{Block, FEW_VERTICES, last_of};

/// Adds the flips of the edges of the rings to an empty list. An edge that crosses no row of the picture is
/// skipped.
pub fn add_rings(flips: &mut Flips, rows: &RowFinder<'_>, rings: &[Part]) -> Result<(), FlipFault>
    requires none { flips.old.flips ≡ [] }
    requires width { flips.old.width ≡ rows.now.width }
    requires height { flips.old.height ≡ rows.now.height }
    ensures sides { flips.new ≡ record flips.old { flips = flips.new.flips } }
    ensures stand { OnOk result (StandFor rows.now flips.new.flips (edges (points_of rows.now rings.now))) }
{
    for ring in rings {
        add_ring(flips, rows, ring)?;
    }
    Ok(())
}

// Adds the flips of one ring: vertex by vertex if it has few, else block by block.
fn add_ring(flips: &mut Flips, rows: &RowFinder<'_>, ring: &Part) -> Result<(), FlipFault>
    requires width { flips.old.width ≡ rows.now.width }
    requires height { flips.old.height ≡ rows.now.height }
    ensures sides { flips.new ≡ record flips.old { flips = flips.new.flips } }
    ensures adds { OnOk result (Adds rows.now flips.old.flips (ring_edges (map (device_point rows.now) ring.now)) flips.new.flips) }
{
    if ring.len() <= FEW_VERTICES {
        return add_small(flips, rows, ring.as_slice());
    }
    add_blocks(flips, rows, ring)
}

// Adds the flips of a ring, vertex by vertex.
fn add_small(flips: &mut Flips, rows: &RowFinder<'_>, ring: &[World]) -> Result<(), FlipFault>
    requires width { flips.old.width ≡ rows.now.width }
    requires height { flips.old.height ≡ rows.now.height }
    ensures sides { flips.new ≡ record flips.old { flips = flips.new.flips } }
    ensures adds { OnOk result (Adds rows.now flips.old.flips (ring_edges (map (device_point rows.now) ring.now)) flips.new.flips) }
{
    let Some((first, rest)) = ring.split_first() else {
        return Ok(());
    };
    let start = rows.corner(*first);
    let end = add_few(flips, rows, &start, rest)?;
    add_edge(flips, &end, &start)
}

// Adds the flips of the edges from a vertex over those that follow. Each is projected once.
fn add_few(
    flips: &mut Flips,
    rows: &RowFinder<'_>,
    start: &Corner,
    rest: &[World],
) -> Result<Corner, FlipFault>
    requires width { flips.old.width ≡ rows.now.width }
    requires height { flips.old.height ≡ rows.now.height }
    requires corner { IsCorner rows.now start.now }
    ensures sides { flips.new ≡ record flips.old { flips = flips.new.flips } }
    ensures from { IfOk result (λ end. end.from ≡ chain_end start.now.from rest.now) }
    ensures corner { IfOk result (λ end. IsCorner rows.now end) }
    ensures adds { OnOk result (AddsChain rows.now flips.old.flips start.now.from rest.now flips.new.flips) }
{
    let mut corner = *start;
    for to in rest {
        let next = rows.corner(*to);
        add_edge(flips, &corner, &next)?;
        corner = next;
    }
    Ok(corner)
}

// Adds the flips of the edge between two vertices. An edge between vertices of one row adds none.
fn add_edge(flips: &mut Flips, from: &Corner, to: &Corner) -> Result<(), FlipFault>
    requires from { from.now.row ≡ first_row from.now.at.y flips.old.height }
    requires to { to.now.row ≡ first_row to.now.at.y flips.old.height }
    ensures sides { flips.new ≡ record flips.old { flips = flips.new.flips } }
    ensures edge { OnOk result ((i j : ℕ) → i < flips.old.width → j < flips.old.height → is_pixel_flipped flips.new.flips i j ≡
        is_one_of (is_pixel_flipped flips.old.flips i j) (crosses_at_or_left (pixel_centre (pos i) (pos j)) (edge_between (from.now.at, to.now.at)))) }
{
    if from.row == to.row {
        return Ok(());
    }
    flips.add(Edge::new(from.at, to.at), rows_between(from.row, to.row))
}

// Adds the flips of a ring, block by block.
fn add_blocks(flips: &mut Flips, rows: &RowFinder<'_>, ring: &Part) -> Result<(), FlipFault>
    requires width { flips.old.width ≡ rows.now.width }
    requires height { flips.old.height ≡ rows.now.height }
    ensures sides { flips.new ≡ record flips.old { flips = flips.new.flips } }
    ensures adds { OnOk result (Adds rows.now flips.old.flips (ring_edges (map (device_point rows.now) ring.now)) flips.new.flips) }
{
    let Some((first, rest)) = ring.as_slice().split_first() else {
        return Ok(());
    };
    let mut run = rows.begin(*first, rows.row_of(first.y()));
    let mut left = rest;
    for area in ring.boxes() {
        let (vertices, behind) = split_block(left);
        let block = Block {
            area: *area,
            vertices,
        };
        run = add_block(flips, rows, run, &block)?;
        left = behind;
    }
    go_on(flips, rows, run, *first)?;
    Ok(())
}

// Adds the flips of a block. It adds none if the block's box lies between the latitudes of the run or right of the
// picture, those of its chord if the box lies left of the picture or within one column, else those of all its edges.
fn add_block(
    flips: &mut Flips,
    rows: &RowFinder<'_>,
    mut run: Run,
    block: &Block<'_>,
) -> Result<Run, FlipFault>
    requires width { flips.old.width ≡ rows.now.width }
    requires height { flips.old.height ≡ rows.now.height }
    requires run { IsRun rows.now run }
    requires has { HasChain block.now.area run.from block.now.vertices.now }
    ensures sides { flips.new ≡ record flips.old { flips = flips.new.flips } }
    ensures from { IfOk result (λ next. next.from ≡ chain_end run.from block.now.vertices.now) }
    ensures run { IfOk result (λ next. IsRun rows.now next) }
    ensures adds { OnOk result (AddsChain rows.now flips.old.flips run.from block.now.vertices.now flips.new.flips) }
{
    let last = last_of(run.from, block.vertices);
    if run.has(block.area.miny()) && run.has(block.area.maxy()) {
        run.from = last;
        return Ok(run);
    }
    if rows.is_right(block.area) {
        return Ok(rows.begin(last, rows.row_of(last.y())));
    }
    if rows.is_left(block.area) {
        return Ok(go_on(flips, rows, run, last)?);
    }
    if rows.is_in_column(block.area) {
        return Ok(go_on(flips, rows, run, last)?);
    }
    add_vertices(flips, rows, run, block.vertices)
}

// Adds the flips of the edges over the vertices of a block. An edge between the two latitudes of the run is skipped.
fn add_vertices(
    flips: &mut Flips,
    rows: &RowFinder<'_>,
    mut run: Run,
    block: &[World],
) -> Result<Run, FlipFault>
    requires width { flips.old.width ≡ rows.now.width }
    requires height { flips.old.height ≡ rows.now.height }
    requires run { IsRun rows.now run }
    ensures sides { flips.new ≡ record flips.old { flips = flips.new.flips } }
    ensures from { IfOk result (λ next. next.from ≡ chain_end run.from block.now) }
    ensures run { IfOk result (λ next. IsRun rows.now next) }
    ensures adds { OnOk result (AddsChain rows.now flips.old.flips run.from block.now flips.new.flips) }
{
    for to in block {
        if run.has(to.y()) {
            run.from = *to;
        } else {
            run = go_on(flips, rows, run, *to)?;
        }
    }
    Ok(run)
}

// Goes on to the next vertex. It adds the flips of the edge to it, if that crosses a row. Inlined, since a call hands the
// run's 40 bytes through memory.
#[inline(always)]
fn go_on(flips: &mut Flips, rows: &RowFinder<'_>, run: Run, to: World) -> Result<Run, FlipFault>
    requires width { flips.old.width ≡ rows.now.width }
    requires height { flips.old.height ≡ rows.now.height }
    requires run { IsRun rows.now run }
    ensures sides { flips.new ≡ record flips.old { flips = flips.new.flips } }
    ensures from { IfOk result (λ next. next.from ≡ to) }
    ensures run { IfOk result (λ next. IsRun rows.now next) }
    ensures edge { OnOk result (AddsEdge rows.now flips.old.flips run.from to flips.new.flips) }
{
    let corner = rows.corner(to);
    if corner.row == run.row {
        return Ok(rows.begin(to, corner.row));
    }
    let edge = Edge::new(rows.projection().device(run.from), corner.at);
    flips.add(edge, rows_between(run.row, corner.row))?;
    Ok(rows.begin(to, corner.row))
}

// The rows that an edge crosses, by the rows of its ends.
fn rows_between(a: u16, b: u16) -> RowRange
    ensures { result ≡ record { from = min a b; to = max a b } }
{
    RowRange {
        from: a.min(b),
        to: a.max(b),
    }
}
