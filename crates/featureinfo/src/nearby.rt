ghost use Rattle.std.specs.Prelude.{◌≡◌, ◌↔◌, ◌<◌, ◌≤◌, IfOk, IsTrue};
ghost use Rattle.std.specs.List.{list_any};
ghost use Rattle.geom.specs.declared.side.TheConstants.{MAX_PICTURE_SIDE};
ghost use Rattle.featureinfo.specs.Nearby.{nearby_of, has_pixel, meets, SomeNear};

use geom::{PictureSide, Pixel};
use scanfill::{Cover, Span, Spans};
use std::alloc::{AllocError, Global};
use viewport::Projection;

/// The pixels of a picture that are near the queried one: columns from one to before another, and rows likewise.
#[derive(Clone, Copy)]
pub struct Nearby {
    pub left: u16,
    pub right: u16,
    pub top: u16,
    pub bottom: u16,
}

impl Nearby {
    /// The pixels within so many columns and rows of a pixel of the projection's picture.
    pub fn of(projection: &Projection, column: u16, row: u16, tolerance: u8) -> Self
        requires column { column < projection.now.width }
        requires row { row < projection.now.height }
        ensures value { result ≡ nearby_of projection.now.width projection.now.height tolerance column row }
        ensures some { result.left < result.right }
        ensures width { result.right ≤ projection.now.width }
        ensures height { result.bottom ≤ MAX_PICTURE_SIDE }
    {
        let (width, height) = (projection.width().pixels(), projection.height().pixels());
        let tolerance = u16::from(tolerance);
        Nearby {
            left: column.saturating_sub(tolerance),
            right: (column + tolerance + 1).min(width),
            top: row.saturating_sub(tolerance),
            bottom: (row + tolerance + 1).min(height),
        }
    }

    /// Whether a pixel is one of the near ones.
    pub fn has(self, pixel: Pixel) -> bool
        ensures { result ≡ has_pixel self pixel }
    {
        let (column, row) = (pixel.i(), pixel.j());
        i64::from(self.left) <= column
            && column < i64::from(self.right)
            && i64::from(self.top) <= row
            && row < i64::from(self.bottom)
    }

    // Whether one of the spans of a row contains one of the columns.
    fn meets(self, spans: &[Span]) -> bool
        ensures { result ≡ list_any (meets self.left self.right) spans.now }
    {
        spans
            .iter()
            .any(|span| span.from < self.right && self.left < span.to)
    }

    /// Whether a cover covers one of the near pixels, by its rows.
    pub fn meets_cover<C: Cover>(
        self,
        alloc: Global,
        cover: &C,
        width: PictureSide,
    ) -> Result<bool, AllocError>
        requires some { self.left < self.right }
        requires width { self.right ≤ width }
        requires height { self.bottom ≤ MAX_PICTURE_SIDE }
        ensures { IfOk result (λ hit. IsTrue hit ↔ SomeNear self (C.covered cover.now)) }
    {
        let mut spans = Spans::new(alloc);
        for row in self.top..self.bottom {
            cover.row(row, width, &mut spans)?;
            if self.meets(spans.as_slice()) {
                return Ok(true);
            }
        }
        Ok(false)
    }
}
