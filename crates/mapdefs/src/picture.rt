ghost use Rattle.std.specs.Prelude.{◌≡◌, ◌+◌, ◌*◌, ◌<◌, Some, slice_get};

use crate::{Items, Limited, Limits, PixelColour, Rgb};
use geom::PictureSide;

/// What a picture is made of: its sides in pixels, and its pixels row by row from the top, each row
/// from the left. A pixel has a colour, or nothing.
#[derive(Drop)]
pub struct PictureFields {
    pub width: PictureSide,
    pub height: PictureSide,
    pub pixels: Items<PixelColour>,
}

impl Limits for PictureFields {
    ghost use Rattle.mapdefs.specs.PictureLimits.{IsPictureWithinLimits};

    ghost within = { IsPictureWithinLimits };
}

/// A picture. There are as many pixels as its sides say.
pub type Picture = Limited<PictureFields>;

impl Picture {
    /// What the pixel in a column and a row has: a colour, or nothing.
    pub fn at(&self, column: u16, row: u16) -> Option<Rgb>
        requires column { column < self.now.width }
        requires row { row < self.now.height }
        ensures { slice_get self.now.pixels (row * self.now.width + column) ≡ Some result }
    {
        let fields = self.get();
        let columns = usize::from(fields.width.pixels());
        fields.pixels.as_slice()[usize::from(row) * columns + usize::from(column)].get()
    }
}
