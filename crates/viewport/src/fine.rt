ghost use Rattle.std.specs.Prelude.{◌≡◌, ◌*◌};
ghost use Rattle.viewport.specs.View.{IsOnSide, block_of, fine_by};

use crate::view::{View, difference};
use geom::{Factor, PictureSide};
use std::marker::Model;

/// So many columns of a picture from one on, or so many rows: as many as a canvas may have.
#[derive(Clone, Copy)]
pub struct Stretch {
    pub first: u16,
    pub count: PictureSide,
}

/// The picture that shows what another one does, so many times as fine in both directions. It may be larger than any
/// canvas, and is painted block by block.
#[derive(Drop)]
pub struct Fine {
    view: View,
    factor: Factor,
}

impl Model for Fine {
    ghost use Rattle.viewport.specs.View.{IsFine, ViewValue, fine_view};

    ghost Value = { ViewValue };

    ghost view = { λ f. fine_view f.view f.factor };

    ghost invariant = { λ f. IsFine f.view f.factor };
}

impl Fine {
    /// The picture that is so many times as fine as that of a view, if a pixel of the view is one of the map's and each
    /// side of its area has as many millionths.
    pub fn new(view: View, factor: Factor) -> Option<Self>
        ensures { result ≡ fine_by view factor }
    {
        let area = view.area();
        let times = i64::from(factor.times());
        if view.factor().times() == 1
            && times <= difference(area.maxx(), area.minx())
            && times <= difference(area.maxy(), area.miny())
        {
            return Some(Fine { view, factor });
        }
        None
    }

    /// How many of its pixels a map's pixel is, in both directions.
    pub fn factor(&self) -> Factor
        ensures { result ≡ self.now.factor }
    {
        self.factor
    }

    /// How many columns of the map's pixels it has.
    pub fn plain_columns(&self) -> PictureSide
        ensures { self.now.columns ≡ self.now.factor * result }
    {
        PictureSide::with_last(self.view.columns() - 1)
    }

    /// How many rows of the map's pixels it has.
    pub fn plain_rows(&self) -> PictureSide
        ensures { self.now.rows ≡ self.now.factor * result }
    {
        PictureSide::with_last(self.view.rows() - 1)
    }

    /// How many columns of pixels it has.
    pub fn columns(&self) -> u16
        ensures { result ≡ self.now.columns }
    {
        u16::from(self.factor.times()) * self.view.columns()
    }

    /// How many rows of pixels it has.
    pub fn rows(&self) -> u16
        ensures { result ≡ self.now.rows }
    {
        u16::from(self.factor.times()) * self.view.rows()
    }

    /// The view by a block of it.
    pub fn block(&self, across: Stretch, down: Stretch) -> View
        requires across { IsOnSide self.now.columns across.first across.count }
        requires down { IsOnSide self.now.rows down.first down.count }
        ensures { result ≡ block_of self.now across down }
    {
        self.view.fine_block(self.factor, across, down)
    }
}
