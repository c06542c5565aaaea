ghost use Rattle.std.specs.Prelude.{◌≡◌, ℕ, ◌<◌, ◌≤◌, Bool, false, [], OnOk, OnErr};
ghost use Rattle.clip.specs.EdgeClass.{has_row};
ghost use Rattle.geom.specs.declared.side.TheConstants.{MAX_PICTURE_SIDE};
ghost use Rattle.scanfill.specs.Runs.{AreRunsFrom};

use crate::span::Spans;
use clip::RowRange;
use geom::PictureSide;
use std::alloc::AllocError;

/// A shape that covers pixels of a picture.
pub trait Cover {
    /// Whether it covers the pixel in a column and a row.
    ghost covered: { Self → ℕ → ℕ → Bool };

    /// Whether it covers the pixel in a column and a row, both below 2,048.
    fn covers(&self, i: u16, j: u16) -> bool
        requires column { i < MAX_PICTURE_SIDE }
        requires row { j < MAX_PICTURE_SIDE }
        ensures { result ≡ covered self.now i j };

    /// The rows of a picture of that width and height outside of which it covers no pixel.
    fn rows(&self, width: PictureSide, height: PictureSide) -> RowRange
        ensures within { result.to ≤ height }
        ensures none { (i j : ℕ) → i < width → j < height → has_row result j ≡ false → covered self.now i j ≡ false };

    /// Leaves in `out` the longest runs of covered pixels of a row below 2,048, on that many columns, from
    /// left to right. What `out` had before is gone. Where memory is refused `out` is empty.
    fn row(&self, j: u16, width: PictureSide, out: &mut Spans) -> Result<(), AllocError>
        requires row { j < MAX_PICTURE_SIDE }
        ensures ok { OnOk result (AreRunsFrom (λ i. covered self.now i j) 0 width out.new) }
        ensures err { OnErr result (out.new ≡ []) };
}
