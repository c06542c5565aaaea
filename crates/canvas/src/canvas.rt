ghost use Rattle.std.specs.Prelude.{◌≡◌, [], ◌*◌, ◌+◌, ◌≤◌, ◌<◌, ◌&&◌, All, Some, length, replicate, IfOk};
ghost use Rattle.scanfill.specs.Runs.{has_column, is_in_spans};
ghost use Rattle.viewport.specs.View.{window};
ghost use Rattle.viewport.specs.declared.view.TheConstants.{MAX_MARGIN};
ghost use Rattle.mapdefs.specs.declared.limits.TheConstants.{MAX_FINE_WIDTH};
ghost use Rattle.canvas.specs.Painted.{HasRowsFilled, IsFilled};

use crate::colouring::{ColouredSpans, Colouring, PixelBox, fill_box, fill_rows};
use crate::kept_chords::KeptChords;
use crate::latitudes::RowLatitudes;
use crate::margin_window::MarginWindow;
use geom::{PictureSide, WorldBox};
use mapdefs::{Items, Picture, PictureFields, PixelColour, Rgb};
use scanfill::{Flips, Span};
use scene::Scene;
use std::alloc::{AllocError, Global};
use std::marker::Model;
use std::mem;
use strokes::Chords;
use viewport::Projection;

/// A picture while it is painted, with a table of the latitudes of its rows, the window that was asked for last, and the
/// chords of the round lines that were painted.
#[derive(Drop)]
pub struct Canvas {
    width: PictureSide,
    height: PictureSide,
    pixels: Vec<PixelColour>,
    latitudes: RowLatitudes,
    flips: Flips,
    window: MarginWindow,
    chords: KeptChords,
}

impl Model for Canvas {
    ghost use Rattle.mapdefs.specs.declared.picture.PictureFields.{PictureFields};
    ghost use Rattle.mapdefs.specs.PictureLimits.{IsPictureWithinLimits};

    ghost Value = { PictureFields };

    ghost view = { λ c. record { width = c.width; height = c.height; pixels = c.pixels.items } };

    ghost invariant = { λ c. IsPictureWithinLimits (record { width = c.width; height = c.height; pixels = c.pixels.items }) };
}

impl Canvas {
    /// A canvas of the background, which may be none, as wide and as high as the scene's picture. What is
    /// painted on it takes its memory from the same allocator.
    pub fn new(
        alloc: Global,
        scene: &Scene<'_>,
        background: Option<Rgb>,
    ) -> Result<Self, AllocError>
        ensures { let view = scene.now.view in
            IfOk result (λ canvas. canvas ≡ record { width = view.width; height = view.height; pixels = replicate (view.width * view.height) background }) }
    {
        let projection = scene.projection();
        let (width, height) = (projection.width(), projection.height());
        let count = usize::from(width.pixels()) * usize::from(height.pixels());
        let pixels = vec![in alloc; PixelColour::new(background); count]?;
        Ok(Canvas {
            width,
            height,
            pixels,
            latitudes: RowLatitudes::new(alloc, projection),
            flips: Flips::new(alloc, width, height),
            window: MarginWindow::new(projection, 1),
            chords: KeptChords::new(alloc),
        })
    }

    /// The allocator that the canvas was made with.
    pub fn alloc(&self) -> Global {
        *self.pixels.allocator()
    }

    /// Makes the table of the latitudes of the canvas's rows for a projection, unless there is one. So it is made once a
    /// picture, for the first polygon.
    pub fn make_latitudes(&mut self, projection: &Projection) -> Result<(), AllocError>
        ensures { self.new ≡ self.old }
    {
        if self.latitudes.is_empty() {
            self.latitudes = RowLatitudes::of(self.alloc(), projection)?;
        }
        Ok(())
    }

    /// The table of the latitudes of the canvas's rows, which may have none yet.
    pub fn latitudes(&self) -> &RowLatitudes {
        &self.latitudes
    }

    /// The part of the world that a projection's picture shows, and `margin` pixels on each side of it. It isn't computed
    /// anew where the same was asked for last.
    pub fn window(&mut self, projection: &Projection, margin: u16) -> WorldBox
        requires { margin ≤ MAX_MARGIN }
        ensures same { self.new ≡ self.old }
        ensures value { result ≡ window projection.now margin }
    {
        if !self.window.is_of(projection, margin) {
            self.window = MarginWindow::new(projection, margin);
        }
        self.window.area()
    }

    /// An empty list of flips of the canvas's picture. It reuses the memory of the list that was taken back last.
    pub fn lend_flips(&mut self) -> Flips
        ensures same { self.new ≡ self.old }
        ensures flips { result ≡ record { width = self.old.width; height = self.old.height; flips = [] } }
    {
        let none = Flips::new(self.alloc(), self.width, self.height);
        let mut flips = mem::replace(&mut self.flips, none);
        flips.restart(self.width, self.height);
        flips
    }

    /// Takes a list of flips back. The next list reuses its memory.
    pub fn return_flips(&mut self, flips: Flips)
        ensures { self.new ≡ self.old }
    {
        self.flips = flips;
    }

    /// The chords of a width, 1 to `MAX_FINE_WIDTH`. They are those that were taken back of that width, or new ones, which
    /// take memory.
    pub fn lend_chords(&mut self, width: u8) -> Result<Chords, AllocError>
        requires some { 1 ≤ width }
        requires most { width ≤ MAX_FINE_WIDTH }
        ensures same { self.new ≡ self.old }
        ensures chords { IfOk result (λ chords. chords ≡ width) }
    {
        self.chords.take(width)
    }

    /// Takes chords back, for the next line of their width.
    pub fn return_chords(&mut self, chords: Chords)
        ensures { self.new ≡ self.old }
    {
        self.chords.keep(chords);
    }

    /// How many columns of pixels the canvas has.
    pub fn width(&self) -> PictureSide
        ensures value { result ≡ self.now.width }
        ensures area { length self.now.pixels ≡ self.now.width * self.now.height }
    {
        self.width
    }

    /// How many rows of pixels the canvas has.
    pub fn height(&self) -> PictureSide
        ensures { result ≡ self.now.height }
    {
        self.height
    }

    /// Its pixels row by row from the top, each row from the left.
    pub fn pixels(&self) -> &[PixelColour]
        ensures value { result.now ≡ self.now.pixels }
        ensures area { length result.now ≡ self.now.width * self.now.height }
    {
        self.pixels.as_slice()
    }

    /// Gives the colour to the pixels of the row `j` that lie in the spans.
    pub fn fill_row(&mut self, j: u16, spans: &[Span], colour: Rgb)
        requires row { j < self.old.height }
        requires within { All (λ span. (span.from ≤ span.to) × (span.to ≤ self.old.width)) spans.now }
        ensures { HasRowsFilled (λ i k. is_in_spans spans.now i) (λ i k. Some colour) j (j + 1) self.old self.new }
    {
        self.colour_row(j, &ColouredSpans { spans, colour });
    }

    /// Gives the pixels of the row `j` their colours.
    pub fn colour_row<K: Colouring>(&mut self, j: u16, colouring: &K)
        requires row { j < self.old.height }
        requires fits { K.fits colouring.now self.old.width }
        ensures { HasRowsFilled (λ i k. K.has colouring.now i) (λ i k. K.colour colouring.now i) j (j + 1) self.old self.new }
    {
        let width = usize::from(self.width.pixels());
        let start = usize::from(j) * width;
        colouring.fill(&mut self.pixels[start..start + width]);
    }

    /// Gives the colour to the pixels in some columns and some rows.
    pub fn fill_box(&mut self, columns: Span, rows: Span, colour: Rgb)
        requires order { columns.from ≤ columns.to }
        requires columns { columns.to ≤ self.old.width }
        requires rows { rows.to ≤ self.old.height }
        ensures { IsFilled (λ i j. has_column columns i && has_column rows j) (λ i j. Some colour) self.old self.new }
    {
        let width = self.width.pixels();
        let area = PixelBox {
            from: columns.from,
            count: columns.to - columns.from,
            rows,
        };
        fill_box(&mut self.pixels, width, area, colour);
    }

    /// Gives the colour to the pixels of a column in some rows.
    pub fn fill_column(&mut self, column: u16, rows: Span, colour: Rgb)
        requires column { column < self.old.width }
        requires rows { rows.to ≤ self.old.height }
        ensures { IsFilled (λ i j. has_column (record { from = column; to = column + 1 }) i && has_column rows j) (λ i j. Some colour) self.old self.new }
    {
        let width = self.width.pixels();
        let area = PixelBox {
            from: column,
            count: 1,
            rows,
        };
        fill_rows(&mut self.pixels, width, area, colour);
    }

    /// The picture as it has been painted.
    pub fn into_picture(self) -> Picture
        ensures { result ≡ self }
    {
        let Canvas {
            width,
            height,
            pixels,
            ..
        } = self;
        Picture::new(PictureFields {
            width,
            height,
            pixels: Items::of(pixels),
        })
    }
}
