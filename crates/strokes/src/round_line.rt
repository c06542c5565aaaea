ghost use Rattle.std.specs.Prelude.{◌≡◌, ℕ, ◌<◌, ◌≤◌, ◌*◌, ◌||◌, [], ◌++◌, length, map, pos, IfOk, OnOk, vec_items};
ghost use Rattle.std.specs.List.{list_any};
ghost use Rattle.geom.specs.declared.side.TheConstants.{MAX_PICTURE_SIDE};
ghost use Rattle.mapdefs.specs.declared.limits.TheConstants.{MAX_FINE_WIDTH};
ghost use Rattle.scanfill.specs.Runs.{AreRunsFrom};
ghost use Rattle.strokes.specs.Columns.{is_marked};
ghost use Rattle.strokes.specs.Round.{covers_pixel, has_centre, round_line, round_segments};

use crate::line::{is_on_some, rows_of_all};
use crate::marks::Marks;
use crate::round::RoundSegment;
use clip::RowRange;
use geom::{Device, PictureSide};
use scanfill::{Cover, Spans};
use std::alloc::{AllocError, Global};
use std::marker::Model;

/// A round line of a width: its segments. Each part has also the one from its first vertex to itself.
#[derive(Drop)]
pub struct RoundLine {
    segments: Vec<RoundSegment>,
}

impl Model for RoundLine {
    ghost use Rattle.std.specs.Prelude.{List};
    ghost use Rattle.strokes.specs.Segment.{SegmentValue};

    ghost Value = { List SegmentValue };

    ghost view = { λ l. l.segments.items };
}

impl RoundLine {
    /// The round line of a width along the vertices of each part. Where it is closed, each part's last vertex is
    /// joined to its first. The width is 1 to `MAX_FINE_WIDTH`.
    pub fn new(
        alloc: Global,
        parts: &[Vec<Device>],
        closed: bool,
        width: u8,
    ) -> Result<Self, AllocError>
        requires some { 1 ≤ width }
        requires most { width ≤ MAX_FINE_WIDTH }
        ensures { IfOk result (λ line. line ≡ round_line (map vec_items parts.now) closed width) }
    {
        let mut segments = Vec::new(alloc);
        for part in parts {
            push_segments(&mut segments, part.as_slice(), closed, width)?;
        }
        Ok(RoundLine { segments })
    }

    // Adds to the empty `out` the runs of a row.
    fn read_row(&self, j: u16, width: PictureSide, out: &mut Spans) -> Result<(), AllocError>
        requires row { j < MAX_PICTURE_SIDE }
        requires empty { out.old ≡ [] }
        ensures { OnOk result (AreRunsFrom (λ i. covers_pixel self.now (pos i) (pos j)) 0 width out.new) }
    {
        let mut marks = Marks::new(*self.segments.allocator(), width)?;
        mark_segments(&self.segments, j, width.pixels(), &mut marks);
        marks.read(out)
    }
}

impl Cover for RoundLine {
    ghost covered = { λ l i j. covers_pixel l (pos i) (pos j) };

    fn covers(&self, i: u16, j: u16) -> bool {
        is_on_some(&self.segments, i, j)
    }

    fn rows(&self, width: PictureSide, height: PictureSide) -> RowRange {
        rows_of_all(&self.segments, width, height)
    }

    fn row(&self, j: u16, width: PictureSide, out: &mut Spans) -> Result<(), AllocError> {
        out.clear();
        match self.read_row(j, width, out) {
            Ok(()) => Ok(()),
            Err(error) => {
                out.clear();
                Err(error)
            }
        }
    }
}

// Marks the columns of a row, of so many, that the segments cover.
fn mark_segments(segments: &[RoundSegment], j: u16, columns: u16, marks: &mut Marks)
    requires row { j < MAX_PICTURE_SIDE }
    requires columns { columns ≡ length marks.old }
    ensures columns { length marks.new ≡ length marks.old }
    ensures all { (i : ℕ) → i < columns →
        is_marked marks.new i ≡ (list_any (has_centre (pos i) (pos j)) segments.now || is_marked marks.old i) }
{
    for segment in segments {
        marks.mark(segment.columns(j, columns));
    }
}

// Adds the segments of a part.
fn push_segments(
    segments: &mut Vec<RoundSegment>,
    part: &[Device],
    closed: bool,
    width: u8,
) -> Result<(), AllocError>
    requires some { 1 ≤ width }
    requires most { width ≤ MAX_FINE_WIDTH }
    ensures { OnOk result (segments.new.items ≡ segments.old.items ++ round_segments closed width part.now) }
{
    let Some((first, rest)) = part.split_first() else {
        return Ok(());
    };
    let mut from = *first;
    segments.push(RoundSegment::new(from, from, width))?;
    for to in rest {
        segments.push(RoundSegment::new(from, *to, width))?;
        from = *to;
    }
    if closed {
        segments.push(RoundSegment::new(from, *first, width))?;
    }
    Ok(())
}
