ghost use Rattle.std.specs.Prelude.{◌≡◌, ℕ, ◌+◌, ◌*◌, ◌<◌, ◌≤◌, ◌&&◌, Bool, if◌then◌else◌, length, All, Option, Some};
ghost use Rattle.mapdefs.specs.declared.colour.Rgb.{Rgb as RgbValue};
ghost use Rattle.scanfill.specs.Runs.{has_column, is_in_spans};
ghost use Rattle.symbols.specs.Stamp.{is_coloured, is_transparent, pixel_from};
ghost use Rattle.canvas.specs.Painted.{AreFilled, colour_of};

use mapdefs::{PixelColour, Rgb};
use scanfill::Span;
use symbols::{RowPixels, is_transparent};

/// Gives pixels of a row their colours: one colour to the pixels of some spans, or a row of a pixmap its own.
pub trait Colouring {
    // Whether it lies within a row with so many columns.
    ghost fits: { Self → ℕ → Type 0 };

    // Whether it has a colour for the pixel in a column, and that colour.
    ghost has: { Self → ℕ → Bool };

    ghost colour: { Self → ℕ → Option RgbValue };

    /// Gives the pixels of a row their colours.
    fn fill(&self, row: &mut [PixelColour])
        requires { fits self.now (length row.old) }
        ensures { (i : ℕ) → colour_of row.new i ≡ (if has self.now i then colour self.now i else colour_of row.old i) };
}

/// Spans of one colour.
#[derive(Drop)]
pub struct ColouredSpans<'a> {
    pub spans: &'a [Span],
    pub colour: Rgb,
}

impl Colouring for ColouredSpans<'_> {
    ghost fits = { λ c width. All (λ span. (span.from ≤ span.to) × (span.to ≤ width)) c.spans.now };

    ghost has = { λ c i. is_in_spans c.spans.now i };

    ghost colour = { λ c i. Some c.colour };

    fn fill(&self, row: &mut [PixelColour]) {
        for span in self.spans {
            fill_span(row, *span, self.colour);
        }
    }
}

// Gives the colour to the pixels of a span.
fn fill_span(row: &mut [PixelColour], span: Span, colour: Rgb)
    requires some { span.from ≤ span.to }
    requires within { span.to ≤ length row.old }
    ensures { (i : ℕ) → colour_of row.new i ≡ (if has_column span i then Some colour else colour_of row.old i) }
{
    let count = span.to - span.from;
    if count < FEW || 2 * FEW < count {
        fill_run(row, span.from, count, colour);
    } else {
        fill_run(row, span.from, FEW, colour);
        fill_run(row, span.to - FEW, FEW, colour);
    }
}

// So many pixels are filled by one store, and up to twice as many by two, which may have pixels in common.
const FEW: u16 = 4;

/// A box of pixels of a picture: columns from one on, in some rows.
#[derive(Clone, Copy)]
pub struct PixelBox {
    /// The first column.
    pub from: u16,
    /// How many columns.
    pub count: u16,
    /// The rows.
    pub rows: Span,
}

/// Gives the colour to the pixels of a box, in a picture that is so many pixels wide. Where the number of columns is
/// known at compile time, a row takes a store or two.
pub fn fill_box(pixels: &mut [PixelColour], width: u16, area: PixelBox, colour: Rgb)
    requires some { 0 < width }
    requires columns { area.from + area.count ≤ width }
    requires rows { area.rows.to * width ≤ length pixels.old }
    ensures area { length pixels.new ≡ length pixels.old }
    ensures filled { AreFilled (λ i j. has_column (record { from = area.from; to = area.from + area.count }) i && has_column area.rows j)
        (λ i j. Some colour) width pixels.old pixels.new }
{
    match area.count {
        1 => fill_rows(pixels, width, PixelBox { count: 1, ..area }, colour),
        3 => fill_rows(pixels, width, PixelBox { count: 3, ..area }, colour),
        5 => fill_rows(pixels, width, PixelBox { count: 5, ..area }, colour),
        _ => fill_rows(pixels, width, area, colour),
    }
}

/// Gives the colour to the pixels of a box, in a picture that is so many pixels wide, by a loop over its rows.
pub fn fill_rows(pixels: &mut [PixelColour], width: u16, area: PixelBox, colour: Rgb)
    requires some { 0 < width }
    requires columns { area.from + area.count ≤ width }
    requires rows { area.rows.to * width ≤ length pixels.old }
    ensures area { length pixels.new ≡ length pixels.old }
    ensures filled { AreFilled (λ i j. has_column (record { from = area.from; to = area.from + area.count }) i && has_column area.rows j)
        (λ i j. Some colour) width pixels.old pixels.new }
{
    let stride = usize::from(width);
    for row in area.rows.from..area.rows.to {
        let start = usize::from(row) * stride;
        fill_run(
            &mut pixels[start..start + stride],
            area.from,
            area.count,
            colour,
        );
    }
}

// Gives the colour to the pixels of so many columns of a row from one on.
fn fill_run(row: &mut [PixelColour], from: u16, count: u16, colour: Rgb)
    requires { from + count ≤ length row.old }
    ensures { (i : ℕ) → colour_of row.new i ≡ (if has_column (record { from = from; to = from + count }) i then Some colour else colour_of row.old i) }
{
    let first = usize::from(from);
    row[first..first + usize::from(count)].fill(PixelColour::new(Some(colour)));
}

impl Colouring for RowPixels<'_> {
    ghost fits = { λ p width. p.from + length p.colours.now ≤ width };

    ghost has = { λ p i. is_coloured (pixel_from p.from p.colours.now i) };

    ghost colour = { λ p i. pixel_from p.from p.colours.now i };

    fn fill(&self, row: &mut [PixelColour]) {
        let first = usize::from(self.from);
        for (k, colour) in self.colours.iter().enumerate() {
            put_pixel(row, first + k, *colour);
        }
    }
}

// Gives a colour to the pixel at an index, unless the colour is transparent.
fn put_pixel(row: &mut [PixelColour], at: usize, colour: Rgb)
    requires { at < length row.old }
    ensures wide { length row.new ≡ length row.old }
    ensures put { colour_of row.new at ≡ (if is_transparent colour then colour_of row.old at else Some colour) }
    ensures left { (i : ℕ) → i < at → colour_of row.new i ≡ colour_of row.old i }
    ensures right { (i : ℕ) → at < i → colour_of row.new i ≡ colour_of row.old i }
{
    if !is_transparent(colour) {
        row[at] = PixelColour::new(Some(colour));
    }
}
