ghost use Rattle.std.specs.Prelude.{◌≡◌, ℕ, ◌<◌, ◌≤◌, Bool, false, [], OnOk, OnErr};
ghost use Rattle.geom.specs.declared.side.TheConstants.{MAX_PICTURE_SIDE};
ghost use Rattle.scanfill.specs.Runs.{AreRunsFrom};

use crate::reading::Reading;
use crate::span::{Span, Spans};
use geom::PictureSide;
use std::alloc::AllocError;

/// A shape that lies in a box, as a pixmap or a glyph: outside of some columns it covers no pixel of any row.
pub trait BoxShape {
    /// Whether it covers the pixel in a column and a row.
    ghost covered: { Self → ℕ → ℕ → Bool };

    /// Whether it covers the pixel in a column and a row.
    fn has_pixel(&self, i: u16, j: u16) -> bool
        ensures { result ≡ covered self.now i j };

    /// The columns of the box, of so many.
    fn columns(&self, end: u16) -> Span
        ensures rising { result.from ≤ result.to }
        ensures within { result.to ≤ end }
        ensures before { (i j : ℕ) → i < result.from → covered self.now i j ≡ false }
        ensures after { (i j : ℕ) → result.to ≤ i → i < end → covered self.now i j ≡ false };
}

/// Leaves in `out` what `Cover::row` leaves there, of a cover that lies in a box. It looks at the pixels of the box
/// alone.
pub fn row_of_box<S: BoxShape>(
    shape: &S,
    j: u16,
    width: PictureSide,
    out: &mut Spans,
) -> Result<(), AllocError>
    requires row { j < MAX_PICTURE_SIDE }
    ensures ok { OnOk result (AreRunsFrom (λ i. S.covered shape.now i j) 0 width out.new) }
    ensures err { OnErr result (out.new ≡ []) }
{
    out.clear();
    match read_row(shape, j, width, out) {
        Ok(()) => Ok(()),
        Err(error) => {
            out.clear();
            Err(error)
        }
    }
}

// Adds to the empty `out` the runs of a row.
fn read_row<S: BoxShape>(
    shape: &S,
    j: u16,
    width: PictureSide,
    out: &mut Spans,
) -> Result<(), AllocError>
    requires row { j < MAX_PICTURE_SIDE }
    requires empty { out.old ≡ [] }
    ensures { OnOk result (AreRunsFrom (λ i. S.covered shape.now i j) 0 width out.new) }
{
    let end = width.pixels();
    let span = shape.columns(end);
    let before = Span {
        from: 0,
        to: span.from,
    };
    let mut reading = Reading::Outside.go_on(before, false, out)?;
    for column in span.from..span.to {
        let pixel = Span {
            from: column,
            to: column + 1,
        };
        reading = reading.go_on(pixel, shape.has_pixel(column, j), out)?;
    }
    let behind = Span {
        from: span.to,
        to: end,
    };
    let reading = reading.go_on(behind, false, out)?;
    reading.finish(end, out)
}
