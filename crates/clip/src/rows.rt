ghost use Rattle.std.specs.Prelude.{◌≡◌, ◌^◌, nat_le};
ghost use Rattle.clip.specs.EdgeClass.{first_row, has_row, joined, rows_of};
ghost use Rattle.geom.specs.Range.{IsBelow};

use crate::index::clamped;
use geom::{Edge, PictureSide};

/// Some rows of a picture, counted from the top: those from one row to before another.
#[derive(Clone, Copy)]
pub struct RowRange {
    /// The first row.
    pub from: u16,
    /// The row after the last one.
    pub to: u16,
}

impl RowRange {
    /// Whether the row is one of these.
    pub fn has(self, row: u16) -> bool
        ensures { result ≡ has_row self row }
    {
        self.from <= row && row < self.to
    }

    /// The rows from the first one to the last one of both.
    pub fn joined(self, other: RowRange) -> RowRange
        ensures { result ≡ joined self other }
    {
        if other.is_empty() {
            self
        } else if self.is_empty() {
            other
        } else {
            RowRange {
                from: self.from.min(other.from),
                to: self.to.max(other.to),
            }
        }
    }

    /// Whether there are no rows.
    pub fn is_empty(self) -> bool
        ensures { result ≡ nat_le self.to self.from }
    {
        self.to <= self.from
    }
}

/// The rows of a picture that an edge crosses. They may be none.
pub fn rows_of(edge: Edge, height: PictureSide) -> RowRange
    ensures { result ≡ rows_of edge height }
{
    RowRange {
        from: first_row(edge.low_end().y(), height),
        to: first_row(edge.high_end().y(), height),
    }
}

/// The first row whose pixel centres lie at that height, in sixteenths of a pixel from the top, or below it; or the picture's
/// height. The height is below 2^47.
#[tactic(auto, unfolding(crate::specs::EdgeClass::first_row))]
pub fn first_row(y: i64, height: PictureSide) -> u16
    requires { IsBelow (2 ^ 47) y }
    ensures { result ≡ first_row y height }
{
    clamped(i128::from((y + 7).div_euclid(16)), height.pixels())
}
