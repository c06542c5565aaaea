ghost use Rattle.std.specs.Prelude.{◌≡◌, ℕ, ◌+◌, ◌*◌, ◌≤◌, ◌<◌, ◌^◌, Bool, true, false, ◌&&◌, ◌||◌, ◌==◌, [], cond, pos, int_le, All, count_by, length, IfErr, IfOk, OnOk};
ghost use Rattle.geom.specs.Device.{pixel_centre};
ghost use Rattle.geom.specs.Edge.{crosses_at_or_left};
ghost use Rattle.geom.specs.Range.{IsBelow};
ghost use Rattle.clip.specs.EdgeClass.{crosses_row, has_row, rows_of};
ghost use Rattle.geom.specs.declared.side.TheConstants.{MAX_PICTURE_SIDE};
ghost use Rattle.scanfill.specs.Column.{CrossesRows, column_of};
ghost use Rattle.scanfill.specs.Flips.{AreRising, index_of, is_pixel_flipped, flips_by};
ghost use Rattle.scanfill.specs.declared.flips.FlipFault.TheVariants.{TooMany};
ghost use Rattle.scanfill.specs.declared.flips.TheConstants.{MAX_FLIPS};

use crate::row_crossing::RowCrossing;
use crate::row_spans::RowSpans;
use crate::walk::EdgeWalk;
use crate::work::Work;
use clip::{EdgeClass, RowRange, clamped, classify_in};
use geom::{Edge, PictureSide};
use std::alloc::{AllocError, Global};
use std::marker::Model;

/// The most flips that a list has. They take four megabytes.
pub const MAX_FLIPS: usize = 1_048_576;

/// Why the flips of an edge were not added.
#[derive(Drop)]
pub enum FlipFault {
    /// The list has `MAX_FLIPS` already.
    TooMany,
    /// Out of memory.
    NoMemory,
}

/// The pixels at which the rows of a picture go in or out, each by its index: its row times 2,048, and its column.
/// They have no order until they are sorted.
#[derive(Drop)]
pub struct Flips {
    width: PictureSide,
    height: PictureSide,
    indices: Vec<u32>,
}

impl Model for Flips {
    ghost use Rattle.std.specs.Prelude.{All};
    ghost use Rattle.scanfill.specs.Flips.{IsFlipOf, FlipsValue};

    ghost Value = { FlipsValue };

    ghost view = { λ t. record { width = t.width; height = t.height; flips = t.indices.items } };

    ghost invariant = { λ t. All (IsFlipOf t.width t.height) t.indices.items };
}

impl Flips {
    ghost use Rattle.scanfill.specs.Flips.{IsFlipOf};

    /// No flips, of a picture of that width and height. It takes no memory.
    pub fn new(alloc: Global, width: PictureSide, height: PictureSide) -> Self
        ensures { result ≡ record { width = width; height = height; flips = [] } }
    {
        Flips {
            width,
            height,
            indices: Vec::new(alloc),
        }
    }

    /// Removes all flips. Those that are added next are of a picture of that width and height. The memory is kept.
    pub fn restart(&mut self, width: PictureSide, height: PictureSide)
        ensures { self.new ≡ record { width = width; height = height; flips = [] } }
    {
        self.indices.clear();
        self.width = width;
        self.height = height;
    }

    /// Adds the flips of an edge: one in each of the rows that it crosses, which are known. After a fault some may have
    /// been added.
    // Inlined, with what it calls for each row: a flip costs less than the calls.
    #[inline(always)]
    pub fn add(&mut self, edge: Edge, rows: RowRange) -> Result<(), FlipFault>
        requires { rows ≡ rows_of edge self.old.height }
        ensures sides { self.new ≡ record self.old { flips = self.new.flips } }
        ensures counts { OnOk result ((i j : ℕ) → i < self.old.width → j < self.old.height →
            count_by (flips_by i j) self.new.flips
            ≡ count_by (flips_by i j) self.old.flips
            + cond (crosses_at_or_left (pixel_centre (pos i) (pos j)) edge) 1 0) }
        ensures many { IfErr result (λ fault. fault ≡ TooMany → MAX_FLIPS ≤ length self.new.flips) }
    {
        match classify_in(edge, rows, self.width, self.height) {
            EdgeClass::Drop => Ok(()),
            EdgeClass::LeftOfView { rows } => self.add_column(rows, 0),
            EdgeClass::Walk { rows } => self.add_walked(edge, rows),
        }
    }

    /// Sorts the flips by row, and in each row by column. The same pixels lie inside.
    pub fn sort(&mut self)
        ensures sides { self.new ≡ record self.old { flips = self.new.flips } }
        ensures rising { AreRising self.new.flips }
        ensures same { (i j : ℕ) → is_pixel_flipped self.new.flips i j ≡ is_pixel_flipped self.old.flips i j }
    {
        self.indices.sort_unstable();
    }

    /// The spans of pixels that lie inside. The flips are sorted.
    pub fn spans(&self) -> RowSpans<'_>
        requires { AreRising self.now.flips }
        ensures { result ≡ self.now }
    {
        RowSpans::new(&self.indices, self.width, self.height)
    }

    // Adds the flips of each of the rows from a column on.
    fn add_column(&mut self, rows: RowRange, column: i64) -> Result<(), FlipFault>
        requires some { rows.from < rows.to }
        requires within { rows.to ≤ self.old.height }
        requires column { IsBelow (2 ^ 44) column }
        ensures sides { self.new ≡ record self.old { flips = self.new.flips } }
        ensures counts { OnOk result ((i j : ℕ) → i < self.old.width →
            count_by (flips_by i j) self.new.flips ≡ count_by (flips_by i j) self.old.flips + cond (has_row rows j && int_le column (pos i)) 1 0) }
        ensures many { IfErr result (λ fault. fault ≡ TooMany → MAX_FLIPS ≤ length self.new.flips) }
    {
        for row in rows.from..rows.to {
            self.add_flip(row, column)?;
        }
        Ok(())
    }

    // Adds the flips of an edge that crosses the rows. For a single row it needs no slope, and an upright edge has one
    // column.
    fn add_walked(&mut self, edge: Edge, rows: RowRange) -> Result<(), FlipFault>
        requires some { rows.from < rows.to }
        requires within { rows.to ≤ self.old.height }
        requires crosses { CrossesRows edge rows.from rows.to }
        ensures sides { self.new ≡ record self.old { flips = self.new.flips } }
        ensures counts { OnOk result ((i j : ℕ) → i < self.old.width →
            count_by (flips_by i j) self.new.flips
            ≡ count_by (flips_by i j) self.old.flips
            + cond (has_row rows j && int_le (column_of edge j) (pos i)) 1 0) }
        ensures many { IfErr result (λ fault. fault ≡ TooMany → MAX_FLIPS ≤ length self.new.flips) }
    {
        let _height = self.height.pixels();
        if rows.from + 1 == rows.to {
            return self.add_flip(rows.from, column(edge, rows.from));
        }
        if edge.run() == 0 {
            return self.add_column(rows, column(edge, rows.from));
        }
        let mut walk = EdgeWalk::start(edge, rows, &mut Work::new());
        for row in rows.from..rows.to - 1 {
            self.add_flip(row, walk.column())?;
            walk.next_row();
        }
        self.add_flip(rows.to - 1, walk.column())
    }

    // Adds the flip of a row from a column on. A column below 0 is the first one, and one past the end adds none.
    #[inline(always)]
    fn add_flip(&mut self, row: u16, column: i64) -> Result<(), FlipFault>
        requires row { row < self.old.height }
        ensures sides { self.new ≡ record self.old { flips = self.new.flips } }
        ensures counts { OnOk result ((i j : ℕ) → i < self.old.width →
            count_by (flips_by i j) self.new.flips ≡ count_by (flips_by i j) self.old.flips + cond (j == row && int_le column (pos i)) 1 0) }
        ensures many { IfErr result (λ fault. fault ≡ TooMany → MAX_FLIPS ≤ length self.new.flips) }
    {
        let width = self.width.pixels();
        let height = self.height.pixels();
        prove!(row < height);
        let at = clamped(i128::from(column), width);
        if at < width {
            if self.indices.len() >= MAX_FLIPS {
                return Err(FlipFault::TooMany);
            }
            if self.indices.push(index_of(row, at)).is_err() {
                return Err(FlipFault::NoMemory);
            }
        }
        Ok(())
    }
}

// The index of a pixel.
fn index_of(row: u16, column: u16) -> u32
    requires row { row < MAX_PICTURE_SIDE }
    requires column { column < MAX_PICTURE_SIDE }
    ensures { result ≡ index_of row column }
{
    u32::from(row) * 2_048 + u32::from(column)
}

// The least column, below 0 too, whose pixel centre in this row the edge crosses at it or left of it.
fn column(edge: Edge, row: u16) -> i64
    requires row { row < MAX_PICTURE_SIDE }
    requires crosses { crosses_row edge row ≡ true }
    ensures value { result ≡ column_of edge row }
    ensures range { IsBelow (2 ^ 44) result }
{
    let _rise = edge.rise();
    RowCrossing::of(edge, row).column
}
