ghost use Rattle.std.specs.Prelude.{◌≡◌, ◌+◌, ◌*◌, ◌≤◌, length};
ghost use Rattle.supersampling.specs.TileRows.{HasTileRows};

use crate::tile::Tile;
use mapdefs::{PixelColour, Rgba};
use smoothing::smooth_row;

/// Fine pixels: how many make one in both directions, the pixels row by row, and how many a row has.
#[derive(Clone, Copy)]
pub struct FineRows<'a> {
    pub factor: u8,
    pub pixels: &'a [PixelColour],
    pub width: usize,
}

/// Gives the pixels of a tile of a picture of so many columns the means of fine pixels.
pub fn fill_tile(fine: FineRows<'_>, tile: Tile, width: usize, pixels: &mut [Rgba])
    requires some { 1 ≤ fine.factor }
    requires most { fine.factor ≤ 4 }
    requires across { tile.column + tile.columns ≤ width }
    requires small { width ≤ 2048 }
    requires area { (tile.row + tile.rows) * width ≤ length pixels.old }
    requires columns { fine.width ≡ fine.factor * tile.columns }
    requires rows { length fine.pixels.now ≡ fine.width * (fine.factor * tile.rows) }
    ensures { HasTileRows fine.entry width tile tile.rows pixels.old pixels.new }
{
    let factor = usize::from(fine.factor);
    let columns = usize::from(tile.columns);
    for row in 0..tile.rows {
        let first = factor * usize::from(row) * fine.width;
        let start = (usize::from(tile.row) + usize::from(row)) * width + usize::from(tile.column);
        smooth_row(
            fine.factor,
            &fine.pixels[first..],
            fine.width,
            &mut pixels[start..start + columns],
        );
    }
}
