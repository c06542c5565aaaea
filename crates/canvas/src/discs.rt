ghost use Rattle.std.specs.Prelude.{Some, pos};
ghost use Rattle.geom.specs.Device.{pixel_centre};
ghost use Rattle.strokes.specs.Disc.{covers_disc};
ghost use Rattle.canvas.specs.Painted.{IsFilled};

use crate::canvas::Canvas;
use mapdefs::Rgb;
use strokes::Disc;

/// Gives the colour to the pixels of a disc or a ring, row by row. It takes no memory.
pub fn fill_disc(canvas: &mut Canvas, disc: Disc, colour: Rgb)
    ensures { IsFilled (λ i j. covers_disc disc (pixel_centre (pos i) (pos j))) (λ i j. Some colour) canvas.old canvas.new }
{
    let (width, height) = (canvas.width().pixels(), canvas.height().pixels());
    let rows = disc.rows(width, height);
    for row in rows.from..rows.to {
        let (left, right) = disc.columns(row, width);
        canvas.fill_row(row, &[left, right], colour);
    }
}
