ghost use Rattle.std.specs.Prelude.{◌≡◌, ℕ, ◌<◌, ◌≤◌, ◌+◌, ◌*◌, ◌-◌, ◌^◌, false, [], ◌++◌, length, map, min, pos, All, IfOk, OnOk, OnErr, vec_items};
ghost use Rattle.clip.specs.EdgeClass.{has_row};
ghost use Rattle.geom.specs.Device.{pixel_centre};
ghost use Rattle.geom.specs.Edge.{crosses_at_or_left};
ghost use Rattle.geom.specs.EvenOdd.{edges, is_covered, ring_edges};
ghost use Rattle.geom.specs.declared.side.TheConstants.{MAX_PICTURE_SIDE};
ghost use Rattle.scanfill.specs.RowFlips.{flip_if, is_flipped};
ghost use Rattle.scanfill.specs.Runs.{AreRunsFrom};
ghost use Rattle.scanfill.specs.Sweep.{walk_count};

use crate::cover::Cover;
use crate::row_flips::RowFlips;
use crate::span::Spans;
use crate::sweep::Sweep;
use crate::walk::EdgeWalk;
use crate::work::Work;
use clip::{EdgeClass, RowRange, classify, rows_of};
use geom::{Device, Edge, PictureSide};
use std::alloc::{AllocError, Global};
use std::marker::Model;

/// A polygon on the picture: the edges of all its rings. It covers the pixels whose centres lie inside of
/// the rings by the even-odd rule.
#[derive(Drop)]
pub struct Polygon {
    edges: Vec<Edge>,
}

impl Model for Polygon {
    ghost use Rattle.std.specs.Prelude.{List};
    ghost use Rattle.geom.specs.Edge.{EdgeEnds};

    ghost Value = { List EdgeEnds };

    ghost view = { λ p. p.edges.items };
}

impl Polygon {
    /// The polygon of the rings, each closed from its last vertex to its first.
    pub fn new(alloc: Global, rings: &[Vec<Device>]) -> Result<Self, AllocError>
        ensures { IfOk result (λ polygon. polygon ≡ edges (map vec_items rings.now)) }
    {
        let mut edges = Vec::new(alloc);
        for ring in rings {
            push_edges(&mut edges, ring.as_slice())?;
        }
        Ok(Polygon { edges })
    }

    /// The polygon of these edges. It takes no memory.
    pub fn of(edges: Vec<Edge>) -> Self
        ensures { result ≡ edges.items }
    {
        Polygon { edges }
    }

    /// A sweep over a picture of that width and height, from its first row. Each edge is classified once,
    /// and each that is to be walked is started, which makes two divisions. Where memory is refused no work
    /// is counted.
    pub fn sweep(
        &self,
        width: PictureSide,
        height: PictureSide,
        work: &mut Work,
    ) -> Result<Sweep<'_>, AllocError>
        ensures sweep { IfOk result (λ sweep. sweep ≡ record { edges = self.now; width = width; height = height; row = 0 }) }
        ensures work { OnOk result (work.new ≡ record { divisions = min (work.old.divisions + 2 * walk_count self.now width height) (2 ^ 64 - 1) }) }
        ensures err { OnErr result (work.new ≡ work.old) }
    {
        let (sweep, counted) = Sweep::new(&self.edges, width, height, *work)?;
        *work = counted;
        Ok(sweep)
    }
}

impl Cover for Polygon {
    ghost covered = { λ p i j. is_covered p (pixel_centre (pos i) (pos j)) };

    fn covers(&self, i: u16, j: u16) -> bool {
        let centre = Device::pixel_centre(i, j);
        let crossings = self
            .edges
            .iter()
            .filter(|edge| edge.crosses_at_or_left(centre))
            .count();
        crossings % 2 == 1
    }

    fn rows(&self, _width: PictureSide, height: PictureSide) -> RowRange {
        crossed_rows(&self.edges, height)
    }

    fn row(&self, j: u16, width: PictureSide, out: &mut Spans) -> Result<(), AllocError> {
        out.clear();
        match read_row(&self.edges, j, width, out) {
            Ok(()) => Ok(()),
            Err(error) => {
                out.clear();
                Err(error)
            }
        }
    }
}

// The rows from the first one to the last one that the edges cross.
fn crossed_rows(edges: &[Edge], height: PictureSide) -> RowRange
    ensures within { result.to ≤ height }
    ensures none { (i j : ℕ) → j < height → has_row result j ≡ false → is_covered edges.now (pixel_centre (pos i) (pos j)) ≡ false }
{
    let mut rows = RowRange { from: 0, to: 0 };
    for edge in edges {
        rows = rows.joined(rows_of(*edge, height));
    }
    rows
}

// Adds to the empty `out` the runs of a row.
fn read_row(
    edges: &Vec<Edge>,
    j: u16,
    width: PictureSide,
    out: &mut Spans,
) -> Result<(), AllocError>
    requires row { j < MAX_PICTURE_SIDE }
    requires empty { out.old ≡ [] }
    ensures { OnOk result (AreRunsFrom (λ i. is_covered edges.now.items (pixel_centre (pos i) (pos j))) 0 width out.new) }
{
    let mut flips = RowFlips::new(*edges.allocator(), width)?;
    for edge in edges {
        flip_edge(&mut flips, *edge, j, width);
    }
    flips.read(out)
}

// Flips the pixels of a row from where the edge crosses it.
fn flip_edge(flips: &mut RowFlips, edge: Edge, j: u16, width: PictureSide)
    requires row { j < MAX_PICTURE_SIDE }
    requires width { length flips.old ≡ width }
    ensures width { length flips.new ≡ width }
    ensures all { (i : ℕ) → i < width →
        is_flipped flips.new i ≡ flip_if (crosses_at_or_left (pixel_centre (pos i) (pos j)) edge) (is_flipped flips.old i) }
{
    match classify(edge, width, PictureSide::with_last(j)) {
        EdgeClass::Drop => {}
        EdgeClass::LeftOfView { rows } if rows.has(j) => flips.flip(0),
        EdgeClass::Walk { rows } if rows.has(j) => {
            let rows = RowRange { from: j, to: j + 1 };
            flips.flip(EdgeWalk::start(edge, rows, &mut Work::new()).column());
        }
        EdgeClass::LeftOfView { .. } | EdgeClass::Walk { .. } => {}
    }
}

// Adds the edges of a ring.
fn push_edges(edges: &mut Vec<Edge>, ring: &[Device]) -> Result<(), AllocError>
    ensures { OnOk result (edges.new.items ≡ edges.old.items ++ ring_edges ring.now) }
{
    let Some((first, rest)) = ring.split_first() else {
        return Ok(());
    };
    let mut from = *first;
    for to in rest {
        edges.push(Edge::new(from, *to))?;
        from = *to;
    }
    edges.push(Edge::new(from, *first))?;
    Ok(())
}
