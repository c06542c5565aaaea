ghost use Rattle.std.specs.Prelude.{◌≡◌, ◌<◌, ◌≤◌, ◌+◌, ◌-◌, ◌^◌, min};
ghost use Rattle.geom.specs.Range.{IsBelow};
ghost use Rattle.geom.specs.declared.side.TheConstants.{MAX_PICTURE_SIDE};
ghost use Rattle.scanfill.specs.Column.{CrossesRows};

use crate::row_crossing::{RowCrossing, Slope};
use crate::work::Work;
use clip::RowRange;
use geom::Edge;
use std::marker::Model;

/// A walk down an edge, over rows that it crosses.
#[derive(Drop)]
pub struct EdgeWalk {
    edge: Edge,
    row: u16,
    end: u16,
    place: RowCrossing,
    slope: Slope,
}

impl Model for EdgeWalk {
    ghost use Rattle.scanfill.specs.Walk.{WalkValue, IsWalked, crossing_at, slope_of};

    ghost Value = { WalkValue };

    ghost view = { λ w. record { edge = w.edge; row = w.row; end = w.end } };

    ghost invariant = { λ w. IsWalked w.edge w.row w.end w.place w.slope };
}

impl EdgeWalk {
    ghost use Rattle.scanfill.specs.Column.{IsColumn, column_of};

    /// A walk over the rows. Two divisions find its first column and its slope.
    pub fn start(edge: Edge, rows: RowRange, work: &mut Work) -> Self
        requires some { rows.from < rows.to }
        requires below { rows.to ≤ MAX_PICTURE_SIDE }
        requires crosses { CrossesRows edge rows.from rows.to }
        ensures walk { result ≡ record { edge = edge; row = rows.from; end = rows.to } }
        ensures work { work.new ≡ record { divisions = min (work.old.divisions + 2) (2 ^ 64 - 1) } }
    {
        work.add(2);
        EdgeWalk {
            edge,
            row: rows.from,
            end: rows.to,
            place: RowCrossing::of(edge, rows.from),
            slope: Slope::of(edge),
        }
    }

    /// The row that the walk has come to.
    pub fn row(&self) -> u16
        ensures { result ≡ self.now.row }
    {
        self.row
    }

    /// The row before which the walk ends.
    pub fn end(&self) -> u16
        ensures { result ≡ self.now.end }
    {
        self.end
    }

    /// The least column, below 0 too, whose pixel centre in this row the edge crosses at it or left of it.
    pub fn column(&self) -> i64
        ensures value { result ≡ column_of self.now.edge self.now.row }
        ensures least { IsColumn self.now.edge self.now.row result }
        ensures range { IsBelow (2 ^ 44) result }
    {
        self.place.column
    }

    /// Goes on to the next row, of which there must be one. It divides nothing.
    pub fn next_row(&mut self)
        requires { self.old.row + 1 < self.old.end }
        ensures { self.new ≡ record self.old { row = self.old.row + 1 } }
    {
        self.place = self.place.next(self.slope);
        self.row += 1;
    }
}
