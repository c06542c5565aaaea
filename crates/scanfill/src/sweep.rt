ghost use Rattle.std.specs.Prelude.{◌≡◌, ℕ, ◌<◌, ◌≤◌, ◌+◌, ◌*◌, ◌-◌, ◌^◌, true, false, [], cond, if◌then◌else◌, min, nat_lt, pos, count_by, All, IfOk, OnOk, OnErr};
ghost use Rattle.geom.specs.Device.{pixel_centre};
ghost use Rattle.geom.specs.Edge.{crosses_at_or_left};
ghost use Rattle.geom.specs.declared.side.TheConstants.{MAX_PICTURE_SIDE};
ghost use Rattle.clip.specs.EdgeClass.{class_of};
ghost use Rattle.scanfill.specs.Crossing.{end_of, reaches, row_of};
ghost use Rattle.scanfill.specs.Runs.{AreRunsFrom};
ghost use Rattle.scanfill.specs.Sweep.{AreEmptyRows, covers_next, is_walk, walk_count};

use crate::crossing::Crossing;
use crate::crossings::Crossings;
use crate::row_flips::RowFlips;
use crate::span::Spans;
use crate::walk::EdgeWalk;
use crate::work::Work;
use clip::{EdgeClass, classify};
use geom::{Edge, PictureSide};
use std::alloc::AllocError;
use std::marker::Model;

/// A sweep over the rows of a polygon, from the top of a picture.
#[derive(Drop)]
pub struct Sweep<'a> {
    edges: &'a [Edge],
    width: PictureSide,
    height: u16,
    crossings: Crossings,
    flips: RowFlips,
}

impl<'a> Model for Sweep<'a> {
    ghost use Rattle.scanfill.specs.Sweep.{ReachesAll, SweepValue};

    ghost Value = { SweepValue };

    ghost view = { λ s. record { edges = s.edges.now; width = s.width; height = s.height; row = s.crossings.row } };

    ghost invariant = { λ s. ReachesAll s.edges.now s.width s.height s.crossings.row s.crossings.list.items s.flips };
}

impl<'a> Sweep<'a> {
    /// A sweep over the edges of a polygon, at the first row, and the work that was done before with the
    /// divisions of its walks.
    pub(crate) fn new(
        edges: &'a Vec<Edge>,
        width: PictureSide,
        height: PictureSide,
        before: Work,
    ) -> Result<(Self, Work), AllocError>
        ensures sweep { IfOk result (λ made. made.0 ≡ record { edges = edges.now.items; width = width; height = height; row = 0 }) }
        ensures work { IfOk result
            (λ made. made.1
            ≡ record {
              divisions = min (before.divisions + 2 * walk_count edges.now.items width height) (2 ^ 64 - 1);
            }) }
    {
        let alloc = *edges.allocator();
        let rows = height.pixels();
        let mut work = before;
        let mut crossings = Vec::new(alloc);
        for edge in edges {
            push_crossing(&mut crossings, *edge, Sides { width, height }, &mut work)?;
        }
        let sweep = Sweep {
            edges: edges.as_slice(),
            width,
            height: rows,
            crossings: Crossings::new(crossings),
            flips: RowFlips::new(alloc, width)?,
        };
        Ok((sweep, work))
    }

    /// The row that comes next, counted from 0. It is the height where none is left.
    pub fn row(&self) -> u16
        ensures { result ≡ self.now.row }
    {
        self.crossings.row()
    }

    /// Goes on to the next row that an edge crosses, or after the last row where none is left. The row that
    /// comes next may be it already. The rows that are skipped have no covered pixel.
    pub fn skip(&mut self)
        ensures row { self.new ≡ record self.old { row = self.new.row } }
        ensures from { self.old.row ≤ self.new.row }
        ensures to { self.new.row ≤ self.old.height }
        ensures empty { AreEmptyRows self.old self.old.row self.new.row }
    {
        self.crossings.skip(self.height);
    }

    /// Leaves in `out` the longest runs of covered pixels of the row that comes next, from left to right,
    /// and goes on. It returns whether there was a row; after the last one `out` is empty. Where memory is
    /// refused `out` is empty too, and the same row comes next.
    pub fn next(&mut self, out: &mut Spans) -> Result<bool, AllocError>
        ensures more { IfOk result (λ more. more ≡ nat_lt self.old.row self.old.height) }
        ensures row { IfOk result (λ more. more ≡ true → AreRunsFrom (covers_next self.old) 0 self.old.width out.new) }
        ensures last { IfOk result (λ more. more ≡ false → out.new ≡ []) }
        ensures ok { OnOk result (self.new ≡ record self.old { row = min (self.old.row + 1) self.old.height }) }
        ensures empty { OnErr result (out.new ≡ []) }
        ensures same { OnErr result (self.new ≡ self.old) }
    {
        out.clear();
        if self.crossings.row() >= self.height {
            return Ok(false);
        }
        self.crossings.flip_all(&mut self.flips);
        let read = self.flips.read(out);
        self.flips.clear();
        if read.is_err() {
            out.clear();
            return Err(AllocError);
        }
        self.crossings.next_row();
        Ok(true)
    }
}

// The sides of a picture.
#[derive(Clone, Copy)]
struct Sides {
    width: PictureSide,
    height: PictureSide,
}

// Adds the crossing of an edge, unless it counts for no pixel of a picture with these sides.
fn push_crossing(
    crossings: &mut Vec<Crossing>,
    edge: Edge,
    sides: Sides,
    work: &mut Work,
) -> Result<(), AllocError>
    requires height { sides.height ≤ MAX_PICTURE_SIDE }
    requires some { All (λ c. row_of c < end_of c) crossings.old.items }
    ensures some { OnOk result (All (λ c. row_of c < end_of c) crossings.new.items) }
    ensures counts { OnOk result ((i j : ℕ) → i < sides.width → j < sides.height →
        count_by (reaches i j) crossings.new.items
        ≡ count_by (reaches i j) crossings.old.items + cond (crosses_at_or_left (pixel_centre (pos i) (pos j)) edge) 1 0) }
    ensures work { OnOk result
        (work.new
        ≡ (if is_walk (class_of edge sides.width sides.height)
        then record { divisions = min (work.old.divisions + 2) (2 ^ 64 - 1) }
        else work.old)) }
{
    match classify(edge, sides.width, sides.height) {
        EdgeClass::Drop => {}
        EdgeClass::LeftOfView { rows } => crossings.push(Crossing::Left { rows })?,
        EdgeClass::Walk { rows } => {
            let walk = EdgeWalk::start(edge, rows, work);
            crossings.push(Crossing::Walk { walk })?;
        }
    }
    Ok(())
}
