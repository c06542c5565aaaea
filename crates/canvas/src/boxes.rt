ghost use Rattle.std.specs.Prelude.{Some, pos};
ghost use Rattle.strokes.specs.Square.{covers_square};
ghost use Rattle.canvas.specs.Painted.{IsFilled};

use crate::canvas::Canvas;
use geom::Pixel;
use mapdefs::Rgb;
use strokes::{Square, single_column};

/// Gives the colour to the pixels of a square.
pub fn fill_square(canvas: &mut Canvas, square: Square, colour: Rgb)
    ensures { IsFilled (λ i j. covers_square square (pos i) (pos j)) (λ i j. Some colour) canvas.old canvas.new }
{
    let columns = square.across(canvas.width().pixels());
    let rows = square.down(canvas.height().pixels());
    canvas.fill_box(columns, rows, colour);
}

/// Gives the colour to a pixel, if the canvas contains it.
pub fn fill_pixel(canvas: &mut Canvas, pixel: Pixel, colour: Rgb)
    ensures { IsFilled (λ i j. covers_square (record { pixel = pixel; size = 1 }) (pos i) (pos j)) (λ i j. Some colour) canvas.old canvas.new }
{
    let columns = single_column(pixel.i(), canvas.width().pixels());
    let rows = single_column(pixel.j(), canvas.height().pixels());
    if columns.from >= columns.to {
        return;
    }
    canvas.fill_column(columns.from, rows, colour);
}
