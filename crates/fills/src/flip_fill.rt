ghost use Rattle.std.specs.Prelude.{◌≡◌, ◌*◌, length, Some};
ghost use Rattle.scanfill.specs.Flips.{AreRising, is_pixel_flipped};
ghost use Rattle.canvas.specs.Painted.{IsFilled};

use canvas::Canvas;
use mapdefs::Rgb;
use scanfill::{Flips, Span};

/// Gives the colour to each pixel of the canvas that lies inside by the flips. The flips are sorted, and belong to a
/// picture with the canvas's sides.
pub fn fill_flips(canvas: &mut Canvas, flips: &Flips, colour: Rgb)
    requires width { flips.now.width ≡ canvas.old.width }
    requires height { flips.now.height ≡ canvas.old.height }
    requires rising { AreRising flips.now.flips }
    ensures filled { IsFilled (is_pixel_flipped flips.now.flips) (λ i j. Some colour) canvas.old canvas.new }
    ensures area { length canvas.old.pixels ≡ canvas.old.width * canvas.old.height }
{
    let _width = canvas.width();
    let mut spans = flips.spans();
    while let Some(span) = spans.next() {
        let columns = Span {
            from: span.from,
            to: span.to,
        };
        canvas.fill_row(span.row, &[columns], colour);
    }
}
