ghost use Rattle.std.specs.Prelude.{◌≡◌, ℕ, ◌<◌, ◌≤◌, ◌||◌, false, [], ◌++◌, length, map, pos, IfOk, OnOk, vec_items};
ghost use Rattle.std.specs.List.{list_any};
ghost use Rattle.clip.specs.EdgeClass.{has_row};
ghost use Rattle.geom.specs.declared.side.TheConstants.{MAX_PICTURE_SIDE};
ghost use Rattle.mapdefs.specs.declared.limits.TheConstants.{MAX_FINE_WIDTH};
ghost use Rattle.scanfill.specs.Runs.{AreRunsFrom};
ghost use Rattle.strokes.specs.Columns.{is_marked};
ghost use Rattle.strokes.specs.Line.{covers_centre, covers_pixel, line_of, segments_of, square_at};
ghost use Rattle.strokes.specs.Square.{covers_square};

use crate::marks::Marks;
use crate::segment::Segment;
use crate::square::Square;
use clip::RowRange;
use geom::{Device, Edge, PictureSide};
use scanfill::{Cover, Spans};
use std::alloc::{AllocError, Global};
use std::marker::Model;

/// A line of a width: its segments, and the squares round the vertices that they join.
#[derive(Drop)]
pub struct Line {
    segments: Vec<Segment>,
    squares: Vec<Square>,
}

impl Model for Line {
    ghost use Rattle.strokes.specs.Line.{LineValue};

    ghost Value = { LineValue };

    ghost view = { λ l. record { segments = l.segments.items; squares = l.squares.items } };
}

impl Line {
    /// The line of a width along the vertices of each part. Where it is closed, each part's last vertex is
    /// joined to its first. The width is 1 to `MAX_FINE_WIDTH`.
    pub fn new(
        alloc: Global,
        parts: &[Vec<Device>],
        closed: bool,
        width: u8,
    ) -> Result<Self, AllocError>
        requires some { 1 ≤ width }
        requires most { width ≤ MAX_FINE_WIDTH }
        ensures { IfOk result (λ line. line ≡ line_of (map vec_items parts.now) closed width) }
    {
        let mut segments = Vec::new(alloc);
        let mut squares = Vec::new(alloc);
        for part in parts {
            push_segments(&mut segments, part.as_slice(), closed, width)?;
            push_squares(&mut squares, part.as_slice(), width)?;
        }
        Ok(Line { segments, squares })
    }

    /// Its segments.
    pub fn segments(&self) -> &[Segment]
        ensures { result.now ≡ self.now.segments }
    {
        self.segments.as_slice()
    }

    /// The squares round its vertices.
    pub fn squares(&self) -> &[Square]
        ensures { result.now ≡ self.now.squares }
    {
        self.squares.as_slice()
    }
}

impl Cover for Line {
    ghost covered = { λ l i j. covers_pixel l (pos i) (pos j) };

    fn covers(&self, i: u16, j: u16) -> bool {
        is_on_some(&self.segments, i, j) || is_on_some(&self.squares, i, j)
    }

    fn rows(&self, width: PictureSide, height: PictureSide) -> RowRange {
        let segments = rows_of_all(&self.segments, width, height);
        segments.joined(rows_of_all(&self.squares, width, height))
    }

    fn row(&self, j: u16, width: PictureSide, out: &mut Spans) -> Result<(), AllocError> {
        out.clear();
        match self.read_row(j, width, out) {
            Ok(()) => Ok(()),
            Err(error) => {
                out.clear();
                Err(error)
            }
        }
    }
}

impl Line {
    // Adds to the empty `out` the runs of a row.
    fn read_row(&self, j: u16, width: PictureSide, out: &mut Spans) -> Result<(), AllocError>
        requires row { j < MAX_PICTURE_SIDE }
        requires empty { out.old ≡ [] }
        ensures { OnOk result (AreRunsFrom (λ i. covers_pixel self.now (pos i) (pos j)) 0 width out.new) }
    {
        let mut marks = Marks::new(*self.segments.allocator(), width)?;
        let columns = width.pixels();
        mark_segments(&self.segments, j, columns, &mut marks);
        mark_squares(&self.squares, j, columns, &mut marks);
        marks.read(out)
    }
}

/// Whether some of the covers covers the pixel.
pub fn is_on_some<C: Cover>(covers: &[C], i: u16, j: u16) -> bool
    requires column { i < MAX_PICTURE_SIDE }
    requires row { j < MAX_PICTURE_SIDE }
    ensures { result ≡ list_any (λ c. C.covered c i j) covers.now }
{
    covers.iter().any(|cover| cover.covers(i, j))
}

/// The rows outside of which none of them covers a pixel.
pub fn rows_of_all<C: Cover>(covers: &[C], width: PictureSide, height: PictureSide) -> RowRange
    ensures within { result.to ≤ height }
    ensures none { (i j : ℕ) → i < width → j < height → has_row result j ≡ false → list_any (λ c. C.covered c i j) covers.now ≡ false }
{
    let mut rows = RowRange { from: 0, to: 0 };
    for cover in covers {
        rows = rows.joined(cover.rows(width, height));
    }
    rows
}

// Marks the columns of a row, of so many, that the segments cover.
fn mark_segments(segments: &[Segment], j: u16, columns: u16, marks: &mut Marks)
    requires row { j < MAX_PICTURE_SIDE }
    requires columns { columns ≡ length marks.old }
    ensures columns { length marks.new ≡ length marks.old }
    ensures all { (i : ℕ) → i < columns →
        is_marked marks.new i ≡ (list_any (covers_centre (pos i) (pos j)) segments.now || is_marked marks.old i) }
{
    for segment in segments {
        marks.mark(segment.columns(j, columns));
    }
}

// Marks those that the squares cover.
fn mark_squares(squares: &[Square], j: u16, columns: u16, marks: &mut Marks)
    requires columns { columns ≡ length marks.old }
    ensures columns { length marks.new ≡ length marks.old }
    ensures all { (i : ℕ) → i < columns →
        is_marked marks.new i ≡ (list_any (λ s. covers_square s (pos i) (pos j)) squares.now || is_marked marks.old i) }
{
    for square in squares {
        marks.mark(square.columns(j, columns));
    }
}

// Adds the segments of a part.
fn push_segments(
    segments: &mut Vec<Segment>,
    part: &[Device],
    closed: bool,
    width: u8,
) -> Result<(), AllocError>
    requires some { 1 ≤ width }
    requires most { width ≤ MAX_FINE_WIDTH }
    ensures { OnOk result (segments.new.items ≡ segments.old.items ++ segments_of closed width part.now) }
{
    let Some((first, rest)) = part.split_first() else {
        return Ok(());
    };
    let mut from = *first;
    for to in rest {
        segments.push(Segment::new(Edge::new(from, *to), width))?;
        from = *to;
    }
    if closed {
        segments.push(Segment::new(Edge::new(from, *first), width))?;
    }
    Ok(())
}

// Adds the squares round the vertices of a part.
fn push_squares(squares: &mut Vec<Square>, part: &[Device], width: u8) -> Result<(), AllocError>
    requires some { 1 ≤ width }
    requires most { width ≤ MAX_FINE_WIDTH }
    ensures { OnOk result (squares.new.items ≡ squares.old.items ++ map (square_at width) part.now) }
{
    for vertex in part {
        squares.push(Square::new(vertex.pixel(), u16::from(width)))?;
    }
    Ok(())
}
