ghost use Rattle.std.specs.Prelude.{◌≡◌, ℕ, ◌<◌, ◌+◌, ◌^◌, pos, int_le};
ghost use Rattle.geom.specs.Range.{IsBelow};
ghost use Rattle.scanfill.specs.Crossing.{IsNext, end_of, reaches, row_of};

use crate::walk::EdgeWalk;
use clip::RowRange;

/// An edge as a sweep knows it, in the row that it has come to.
#[derive(Drop)]
pub enum Crossing {
    /// It lies left of the view, in the rows that are left.
    Left {
        /// Those rows.
        rows: RowRange,
    },
    /// It is walked.
    Walk {
        /// The walk.
        walk: EdgeWalk,
    },
}

impl Crossing {
    /// The row that it has come to.
    pub fn row(&self) -> u16
        ensures { result ≡ row_of self.now }
    {
        match self {
            Crossing::Left { rows } => rows.from,
            Crossing::Walk { walk } => walk.row(),
        }
    }

    /// The row before which it ends.
    pub fn end(&self) -> u16
        ensures { result ≡ end_of self.now }
    {
        match self {
            Crossing::Left { rows } => rows.to,
            Crossing::Walk { walk } => walk.end(),
        }
    }

    /// The column of this row from which on it counts. It is 0 for an edge left of the view.
    pub fn column(&self) -> i64
        requires { row_of self.now < end_of self.now }
        ensures reached { (i : ℕ) → int_le result (pos i) ≡ reaches i (row_of self.now) self.now }
        ensures range { IsBelow (2 ^ 44) result }
    {
        match self {
            Crossing::Left { .. } => 0,
            Crossing::Walk { walk } => walk.column(),
        }
    }

    /// Goes on to the next row.
    pub fn next_row(&mut self)
        requires more { row_of self.old + 1 < end_of self.old }
        requires fits { row_of self.old + 1 < 2 ^ 16 }
        ensures { IsNext self.old self.new }
    {
        match self {
            Crossing::Left { rows } => rows.from += 1,
            Crossing::Walk { walk } => walk.next_row(),
        }
    }
}
