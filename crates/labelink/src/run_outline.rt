ghost use Rattle.std.specs.Prelude.{◌≡◌, ℕ, ℤ, ◌<◌, ◌≤◌, ◌^◌, ◌&&◌, false, pos, int_le, int_lt};
ghost use Rattle.std.specs.Option.{MatchOption};
ghost use Rattle.geom.specs.Range.{IsBelow};
ghost use Rattle.geom.specs.declared.side.TheConstants.{MAX_PICTURE_SIDE};
ghost use Rattle.labelink.specs.Disc.{is_beside, outlines_run};
ghost use Rattle.scanfill.specs.Runs.{has_column};

use crate::disc_chords::DiscChords;
use clip::RowRange;
use geom::PictureSide;
use scanfill::{Cover, Span, Spans};
use std::alloc::AllocError;
use std::marker::Model;

/// The outline of a run of ink: the pixels whose centres are at most so many pixels away from that of one of the run.
#[derive(Drop)]
pub struct RunOutline<'a> {
    chords: &'a DiscChords,
    row: i64,
    from: i64,
    past: i64,
}

impl<'a> Model for RunOutline<'a> {
    ghost use Rattle.labelink.specs.Disc.{IsRun, RunValue};

    ghost Value = { RunValue };

    ghost view = { λ r. record { reach = r.chords.now; row = r.row; from = r.from; past = r.past } };

    ghost invariant = { λ r. IsRun (record { reach = r.chords.now; row = r.row; from = r.from; past = r.past }) };
}

impl<'a> RunOutline<'a> {
    /// The outline, by the chords of its disc, of a run in a row, from a column to before another one.
    pub fn new(chords: &'a DiscChords, row: i64, from: i64, past: i64) -> Self
        requires row { IsBelow (2 ^ 48) row }
        requires from { IsBelow (2 ^ 48) from }
        requires past { IsBelow (2 ^ 48) past }
        ensures { result ≡ record { reach = chords.now; row = row; from = from; past = past } }
    {
        RunOutline {
            chords,
            row,
            from,
            past,
        }
    }

    // How far it reaches to both sides of the run in a row, if it has pixels there.
    fn half(&self, row: u16) -> Option<u8>
        ensures { MatchOption result
            ((i : ℤ) → outlines_run self.now i (pos row) ≡ false)
            (λ half. (i : ℤ) → outlines_run self.now i (pos row) ≡ is_beside self.now half i) }
    {
        if self.from >= self.past {
            return None;
        }
        self.chords.half(self.row - i64::from(row))
    }

    // The columns of a row, of so many, that it has.
    fn columns(&self, row: u16, end: u16) -> Span
        ensures all { (i : ℕ) → i < end → has_column result i ≡ outlines_run self.now (pos i) (pos row) }
        ensures within { result.to ≤ end }
    {
        match self.half(row) {
            Some(half) => {
                let half = widened(half);
                cut(self.from - half, self.past + half, end)
            }
            None => Span { from: 0, to: 0 },
        }
    }
}

// How many pixels that is, as a difference of columns or rows.
fn widened(pixels: u8) -> i64
    ensures value { result ≡ pos pixels }
    ensures range { IsBelow 256 result }
{
    i64::from(pixels)
}

// The columns, or the rows, of so many, from one number on and before another one.
fn cut(from: i64, past: i64, end: u16) -> Span
    requires from { IsBelow (2 ^ 50) from }
    requires past { IsBelow (2 ^ 50) past }
    ensures all { (i : ℕ) → i < end → has_column result i ≡ (int_le from (pos i) && int_lt (pos i) past) }
    ensures within { result.to ≤ end }
{
    Span::clipped(from, past, end)
}

impl Cover for RunOutline<'_> {
    ghost covered = { λ o i j. outlines_run o (pos i) (pos j) };

    fn covers(&self, i: u16, j: u16) -> bool {
        let span = self.columns(j, i + 1);
        span.from <= i && i < span.to
    }

    fn rows(&self, _width: PictureSide, height: PictureSide) -> RowRange {
        let reach = widened(self.chords.reach());
        let rows = cut(self.row - reach, self.row + reach + 1, height.pixels());
        RowRange {
            from: rows.from,
            to: rows.to,
        }
    }

    fn row(&self, j: u16, width: PictureSide, out: &mut Spans) -> Result<(), AllocError> {
        out.clear();
        let span = self.columns(j, width.pixels());
        if span.from < span.to {
            out.push(span)?;
        }
        Ok(())
    }
}
