ghost use Rattle.std.specs.Prelude.{◌≡◌, ◌≤◌, ◌<◌, ◌*◌, true, false, pos, length, Some, IfOk, OnOk};
ghost use Rattle.geom.specs.Device.{pixel_centre};
ghost use Rattle.geom.specs.EvenOdd.{is_covered};
ghost use Rattle.canvas.specs.Painted.{HasRowsFilled, IsFilled};

use canvas::Canvas;
use mapdefs::Rgb;
use scanfill::{Polygon, Spans, Sweep, Work};
use std::alloc::AllocError;

/// Gives the colour to each pixel that the polygon covers. It takes memory for the edges that cross the
/// picture, and for a row. Where memory is refused, some rows may be filled already.
pub fn fill_polygon(canvas: &mut Canvas, polygon: &Polygon, colour: Rgb) -> Result<(), AllocError>
    ensures filled { OnOk result (IsFilled (λ i j. is_covered polygon.now (pixel_centre (pos i) (pos j))) (λ i j. Some colour) canvas.old canvas.new) }
    ensures area { length canvas.old.pixels ≡ canvas.old.width * canvas.old.height }
{
    let mut sweep = polygon.sweep(canvas.width(), canvas.height(), &mut Work::new())?;
    let mut spans = Spans::new(canvas.alloc());
    while fill_next(canvas, &mut sweep, &mut spans, colour)? {}
    Ok(())
}

// Skips the rows that no edge crosses, and fills the one after them. It returns whether there is one.
fn fill_next(
    canvas: &mut Canvas,
    sweep: &mut Sweep<'_>,
    spans: &mut Spans,
    colour: Rgb,
) -> Result<bool, AllocError>
    requires width { sweep.old.width ≡ canvas.old.width }
    requires height { sweep.old.height ≡ canvas.old.height }
    requires area { length canvas.old.pixels ≡ canvas.old.width * canvas.old.height }
    ensures sweep { OnOk result (sweep.new ≡ record sweep.old { row = sweep.new.row }) }
    ensures rows { OnOk result ((sweep.old.row ≤ sweep.new.row) × (sweep.new.row ≤ sweep.old.height)) }
    ensures more { IfOk result (λ more. more ≡ true → sweep.old.row < sweep.new.row) }
    ensures last { IfOk result (λ more. more ≡ false → sweep.new.row ≡ sweep.old.height) }
    ensures filled { OnOk result
        (HasRowsFilled (λ i j. is_covered sweep.old.edges (pixel_centre (pos i) (pos j)))
        (λ i j. Some colour) sweep.old.row sweep.new.row canvas.old canvas.new) }
{
    sweep.skip();
    let row = sweep.row();
    if !sweep.next(spans)? {
        return Ok(false);
    }
    canvas.fill_row(row, spans.as_slice(), colour);
    Ok(true)
}
