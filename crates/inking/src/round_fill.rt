ghost use Rattle.std.specs.Prelude.{pos, Some};
ghost use Rattle.geom.specs.Device.{pixel_centre};
ghost use Rattle.strokes.specs.Round.{covers_round};
ghost use Rattle.canvas.specs.Painted.{IsFilled};

use canvas::Canvas;
use mapdefs::Rgb;
use strokes::RoundStep;

/// Gives the colour to the pixels that a step of a round line covers, row by row.
pub fn fill_step(canvas: &mut Canvas, step: &RoundStep<'_>, colour: Rgb)
    ensures { IsFilled (λ i j. covers_round step.now.width step.now.edge (pixel_centre (pos i) (pos j))) (λ i j. Some colour) canvas.old canvas.new }
{
    let (width, height) = (canvas.width().pixels(), canvas.height().pixels());
    let rows = step.rows(width, height);
    if rows.from >= rows.to {
        return;
    }
    for row in rows.from..rows.to {
        canvas.fill_row(row, &[step.columns(row, width)], colour);
    }
}
