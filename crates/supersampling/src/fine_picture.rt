//! What the drawing of a smoothed picture asks for.

ghost use Rattle.std.specs.Prelude.{◌≡◌, ◌+◌, ◌*◌, ◌≤◌, IfOk};
ghost use Rattle.compose.specs.Blocks.{IsBlockOf};
ghost use Rattle.supersampling.specs.Tiles.{IsSmoothFields, IsTileFilled, IsTileOf};

use crate::tile::Tile;
use canvas::Canvas;
use std::alloc::AllocError;
use viewport::Stretch;

/// A fine picture that can be painted block by block.
pub trait FinePicture {
    ghost use Rattle.std.specs.Prelude.{ℕ, Option};
    ghost use Rattle.mapdefs.specs.declared.colour.Rgb.{Rgb as RgbValue};

    /// The colour of each of its pixels.
    ghost colour: { Self → ℕ → ℕ → Option RgbValue };

    /// How many of its pixels a map's pixel is.
    ghost factor: { Self → ℕ };

    /// Its sides.
    ghost columns: { Self → ℕ };

    ghost rows: { Self → ℕ };

    /// How many of its pixels a map's pixel is.
    fn factor(&self) -> u8
        ensures value { result ≡ factor self.now }
        ensures some { 1 ≤ result }
        ensures most { result ≤ 4 };

    /// A block of it, painted on a canvas.
    fn block(&self, across: Stretch, down: Stretch) -> Result<Canvas, AllocError>
        requires across { across.first + across.count ≤ columns self.now }
        requires down { down.first + down.count ≤ rows self.now }
        ensures { IfOk result (IsBlockOf (colour self.now) across down) };
}

/// A smoothed picture while it is made.
pub trait MeanPicture {
    ghost use Rattle.mapdefs.specs.declared.smooth_picture.SmoothFields.{SmoothFields as SmoothValue};

    /// The picture so far.
    ghost picture: { Self → SmoothValue };

    /// How many columns it has.
    fn width(&self) -> u16
        ensures value { result ≡ (picture self.now).width }
        ensures limits { IsSmoothFields (picture self.now) };

    /// How many rows it has.
    fn height(&self) -> u16
        ensures { result ≡ (picture self.now).height };

    /// Gives the pixels of a tile the means of the canvas's pixels.
    fn fill(&mut self, factor: u8, canvas: &Canvas, tile: Tile)
        requires some { 1 ≤ factor }
        requires most { factor ≤ 4 }
        requires tile { IsTileOf factor (picture self.old) tile }
        requires columns { canvas.now.width ≡ factor * tile.columns }
        requires rows { canvas.now.height ≡ factor * tile.rows }
        ensures { IsTileFilled factor canvas.now tile (picture self.old) (picture self.new) };
}
