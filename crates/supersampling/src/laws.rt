//! Laws of the definitions. A law is a function without arguments whose contract states it.

ghost use Rattle.supersampling.specs.Smooth.{BlocksHaveWholePixels, HasOneSmoothPicture, RowsBeginAnywhere, SmoothByOneIsThePicture};
ghost use Rattle.supersampling.specs.Tiles.{DrawnIsSmooth};

/// A pixel of a smoothed block is that of the smoothed whole, if the block begins with a whole pixel.
pub fn blocks_have_whole_pixels()
    ensures { BlocksHaveWholePixels }
{}

/// There is one smoothed picture.
pub fn one_smooth_picture()
    ensures { HasOneSmoothPicture }
{}

/// Where a map's pixel is one pixel of the picture, the smoothed picture is the picture.
pub fn smooth_by_one()
    ensures { SmoothByOneIsThePicture }
{}

/// Tiles of the whole fine picture with its labels make the smoothed picture.
pub fn drawn_is_smooth()
    ensures { DrawnIsSmooth }
{}

/// A row of the smoothed picture of some pixels is the first one of the pixels without those of the rows before it.
pub fn rows_begin_anywhere()
    ensures { RowsBeginAnywhere }
{}
