ghost use Rattle.std.specs.Prelude.{pos, Some};
ghost use Rattle.geom.specs.Device.{pixel_centre};
ghost use Rattle.strokes.specs.Segment.{covers_by_rows, turned};
ghost use Rattle.canvas.specs.Painted.{IsFilled};

use canvas::Canvas;
use mapdefs::Rgb;
use strokes::Strip;

/// Gives the colour to the pixels that a strip covers, row by row.
pub fn fill_down(canvas: &mut Canvas, strip: Strip, colour: Rgb)
    ensures { IsFilled (λ i j. covers_by_rows strip.width strip.edge (pixel_centre (pos i) (pos j))) (λ i j. Some colour) canvas.old canvas.new }
{
    let (width, height) = (canvas.width().pixels(), canvas.height().pixels());
    let rows = strip.rows(height);
    if rows.from >= rows.to {
        return;
    }
    let mut walk = strip.walk(rows.from);
    for row in rows.from..rows.to {
        canvas.fill_row(row, &[walk.columns(width)], colour);
        walk.next();
    }
}

/// Gives the colour to the pixels that a turned strip covers, column by column.
pub fn fill_across(canvas: &mut Canvas, strip: Strip, colour: Rgb)
    ensures { IsFilled (λ i j. covers_by_rows strip.width strip.edge (turned (pixel_centre (pos i) (pos j)))) (λ i j. Some colour) canvas.old canvas.new }
{
    let (width, height) = (canvas.width().pixels(), canvas.height().pixels());
    let columns = strip.rows(width);
    if columns.from >= columns.to {
        return;
    }
    let mut walk = strip.walk(columns.from);
    for column in columns.from..columns.to {
        canvas.fill_column(column, walk.columns(height), colour);
        walk.next();
    }
}
