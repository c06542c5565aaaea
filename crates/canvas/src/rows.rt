ghost use Rattle.std.specs.Prelude.{OnOk, Some};
ghost use Rattle.std.specs.List.{list_any};
ghost use Rattle.canvas.specs.Painted.{IsFilled};

use crate::canvas::Canvas;
use mapdefs::Rgb;
use scanfill::{Cover, Spans};
use std::alloc::AllocError;

/// Gives the colour to the pixels that the cover covers. It visits the rows of the cover alone, and takes
/// memory for a row. Where memory is refused, some rows may have the colour already.
pub fn paint_cover<C: Cover>(canvas: &mut Canvas, cover: &C, colour: Rgb) -> Result<(), AllocError>
    ensures { OnOk result (IsFilled (C.covered cover.now) (λ i j. Some colour) canvas.old canvas.new) }
{
    let (width, height) = (canvas.width(), canvas.height());
    let rows = cover.rows(width, height);
    let mut spans = Spans::new(canvas.alloc());
    for row in rows.from..rows.to {
        cover.row(row, width, &mut spans)?;
        canvas.fill_row(row, spans.as_slice(), colour);
    }
    Ok(())
}

/// Gives the colour to the pixels that some cover covers: one cover after another. It takes memory for a row of each. Where
/// memory is refused, some of them may have the colour already.
pub fn paint_covers<C: Cover>(
    canvas: &mut Canvas,
    covers: &[C],
    colour: Rgb,
) -> Result<(), AllocError>
    ensures { OnOk result (IsFilled (λ i j. list_any (λ c. C.covered c i j) covers.now) (λ i j. Some colour) canvas.old canvas.new) }
{
    for cover in covers {
        paint_cover(canvas, cover, colour)?;
    }
    Ok(())
}
