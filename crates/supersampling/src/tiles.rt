ghost use Rattle.std.specs.Prelude.{◌≡◌, ◌+◌, ◌*◌, ◌<◌, ◌≤◌, OnOk};
ghost use Rattle.supersampling.specs.Tiles.{HasColumns, HasRows, HasSameSides, IsSmoothFields, IsTileDrawn, IsTileOf};

use crate::fine_picture::{FinePicture, MeanPicture};
use crate::tile::{Tile, stretch};
use std::alloc::AllocError;

/// The most columns of a canvas.
const MOST_COLUMNS: u16 = 2_048;

/// The rows of a canvas: of 2,048 columns it has 1 MB, and stays in the cache.
const CANVAS_ROWS: u16 = 128;

// Some rows of a smoothed picture from one on.
#[derive(Clone, Copy)]
struct Strip {
    row: u16,
    rows: u16,
}

// Draws a tile: paints its fine pixels on the canvas, and takes their means.
fn draw_tile<F: FinePicture, M: MeanPicture>(
    fine: &F,
    picture: &mut M,
    tile: Tile,
) -> Result<(), AllocError>
    requires sides { IsSmoothFields (M.picture picture.old) }
    requires columns { F.columns fine.now ≡ F.factor fine.now * (M.picture picture.old).width }
    requires rows { F.rows fine.now ≡ F.factor fine.now * (M.picture picture.old).height }
    requires tile { IsTileOf (F.factor fine.now) (M.picture picture.old) tile }
    ensures { OnOk result (IsTileDrawn (F.factor fine.now) (F.colour fine.now) tile (M.picture picture.old) (M.picture picture.new)) }
{
    let factor = fine.factor();
    let across = stretch(factor, tile.column, tile.columns);
    let down = stretch(factor, tile.row, tile.rows);
    let canvas = fine.block(across, down)?;
    picture.fill(factor, &canvas, tile);
    Ok(())
}

// Draws some rows of a smoothed picture, tile by tile.
fn draw_strip<F: FinePicture, M: MeanPicture>(
    fine: &F,
    picture: &mut M,
    strip: Strip,
) -> Result<(), AllocError>
    requires columns { F.columns fine.now ≡ F.factor fine.now * (M.picture picture.old).width }
    requires rows { F.rows fine.now ≡ F.factor fine.now * (M.picture picture.old).height }
    requires some { 1 ≤ strip.rows }
    requires within { strip.row + strip.rows ≤ (M.picture picture.old).height }
    requires most { F.factor fine.now * strip.rows ≤ 2048 }
    requires above { HasRows (F.factor fine.now) (F.colour fine.now) strip.row (M.picture picture.old) }
    ensures sides { OnOk result (HasSameSides (M.picture picture.old) (M.picture picture.new)) }
    ensures rows { OnOk result (HasRows (F.factor fine.now) (F.colour fine.now) (strip.row + strip.rows) (M.picture picture.new)) }
{
    let width = picture.width();
    let most = MOST_COLUMNS / u16::from(fine.factor());
    let mut column = 0;
    while column < width {
        let columns = most.min(width - column);
        let tile = Tile {
            column,
            columns,
            row: strip.row,
            rows: strip.rows,
        };
        draw_tile(fine, picture, tile)?;
        column += columns;
    }
    Ok(())
}

/// Draws a smoothed picture, strip by strip. The canvas is used for each tile.
pub fn draw_tiles<F: FinePicture, M: MeanPicture>(
    fine: &F,
    picture: &mut M,
) -> Result<(), AllocError>
    requires columns { F.columns fine.now ≡ F.factor fine.now * (M.picture picture.old).width }
    requires rows { F.rows fine.now ≡ F.factor fine.now * (M.picture picture.old).height }
    ensures sides { OnOk result (HasSameSides (M.picture picture.old) (M.picture picture.new)) }
    ensures rows { OnOk result (HasRows (F.factor fine.now) (F.colour fine.now) (M.picture picture.new).height (M.picture picture.new)) }
{
    let _width = picture.width();
    let height = picture.height();
    let most = CANVAS_ROWS / u16::from(fine.factor());
    let mut row = 0;
    while row < height {
        let rows = most.min(height - row);
        draw_strip(fine, picture, Strip { row, rows })?;
        row += rows;
    }
    Ok(())
}
