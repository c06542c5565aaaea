ghost use Rattle.std.specs.Prelude.{◌≡◌, ℕ, ◌<◌, ◌≤◌, ◌*◌, ◌&&◌, pos};
ghost use Rattle.geom.specs.Device.{pixel_centre};
ghost use Rattle.geom.specs.declared.side.TheConstants.{MAX_PICTURE_SIDE};
ghost use Rattle.mapdefs.specs.declared.limits.TheConstants.{MAX_FINE_WIDTH};
ghost use Rattle.scanfill.specs.Runs.{has_column};
ghost use Rattle.strokes.specs.Round.{covers_round, is_abreast, is_close};

use crate::distance::{apart, aside, down};
use crate::number::step;
use crate::root::{limit, root, square_of_half};
use crate::round_columns::{abreast_columns, centres_about, close_columns, disc_columns, joined};
use clip::RowRange;
use geom::{Device, PictureSide};
use scanfill::{Cover, Span, Spans};
use std::alloc::AllocError;
use std::marker::Model;

/// A round segment: its ends, its width, and how far aside of its line a point of it may lie, times its length.
#[derive(Drop)]
pub struct RoundSegment {
    from: Device,
    to: Device,
    width: u8,
    reach: i64,
}

impl Model for RoundSegment {
    ghost use Rattle.strokes.specs.Segment.{SegmentValue};
    ghost use Rattle.strokes.specs.Round.{IsReaching};

    ghost Value = { SegmentValue };

    ghost view = { λ s. record { edge = record { from = s.from; to = s.to }; width = s.width } };

    ghost invariant = { λ s. IsReaching (record { edge = record { from = s.from; to = s.to }; width = s.width }) s.reach };
}

impl RoundSegment {
    /// The round segment of a width between two points. The width is 1 to `MAX_FINE_WIDTH`.
    pub fn new(from: Device, to: Device, width: u8) -> Self
        requires some { 1 ≤ width }
        requires most { width ≤ MAX_FINE_WIDTH }
        ensures { result ≡ record { edge = record { from = from; to = to }; width = width } }
    {
        let length = apart(from, to);
        RoundSegment {
            from,
            to,
            width,
            reach: root(limit(square_of_half(width), length)),
        }
    }

    /// The columns of a row, of so many, that it covers.
    pub fn columns(&self, row: u16, end: u16) -> Span
        requires { row < MAX_PICTURE_SIDE }
        ensures all { (i : ℕ) → i < end → has_column result i ≡ covers_round self.now.width self.now.edge (pixel_centre (pos i) (pos row)) }
        ensures within { result.to ≤ end }
    {
        let one = disc_columns(self.width, self.from, row, end);
        let other = disc_columns(self.width, self.to, row, end);
        joined(joined(one, other), self.beside_columns(row, end))
    }

    // The columns of a row whose centres lie beside it.
    pub(crate) fn beside_columns(&self, row: u16, end: u16) -> Span
        requires { row < MAX_PICTURE_SIDE }
        ensures all { (i : ℕ) → i < end → has_column result i ≡
            (is_abreast self.now.edge (pixel_centre (pos i) (pos row)) && is_close self.now.width self.now.edge (pixel_centre (pos i) (pos row))) }
        ensures within { result.to ≤ end }
    {
        let first = Device::pixel_centre(0, row);
        let all = Span { from: 0, to: end };
        let abreast = abreast_columns(self.from, self.to, first, all);
        close_columns(
            abreast,
            aside(self.from, self.to, first),
            step(down(self.from, self.to)),
            self.reach,
        )
    }
}

impl Cover for RoundSegment {
    ghost covered = { λ s i j. covers_round s.width s.edge (pixel_centre (pos i) (pos j)) };

    fn covers(&self, i: u16, j: u16) -> bool {
        let span = self.columns(j, i + 1);
        span.from <= i && i < span.to
    }

    fn rows(&self, width: PictureSide, height: PictureSide) -> RowRange {
        let columns = centres_about(self.from.x(), self.to.x(), self.width, width.pixels());
        if columns.from >= columns.to {
            return RowRange { from: 0, to: 0 };
        }
        let rows = centres_about(self.from.y(), self.to.y(), self.width, height.pixels());
        RowRange {
            from: rows.from,
            to: rows.to,
        }
    }

    fn row(&self, j: u16, width: PictureSide, out: &mut Spans) -> Result<(), AllocError> {
        out.clear();
        let span = self.columns(j, width.pixels());
        if span.from < span.to {
            out.push(span)?;
        }
        Ok(())
    }
}
