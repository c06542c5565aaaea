ghost use Rattle.std.specs.Prelude.{◌≡◌, ◌++◌, ◌<◌, ◌≤◌, ◌^◌, max, IfOk, OnOk};
ghost use Rattle.mapwarnings.specs.Bitmap.{is_small, least_of, numbered_fonts, small_bitmap, small_bitmaps, small_fonts, small_symbol, small_symbols};

use geom::Factor;
use mapdefs::{Font, Map, Pixmap, Symbol, SymbolShape};
use std::alloc::{AllocError, Global};

/// How many pixels of the picture letters have at least that can be read.
pub const LEAST_HEIGHT: u16 = 8;

/// How many pixels of the picture the longer side of a symbol has at least that is more than a speck.
pub const LEAST_SIDE: u16 = 4;

/// A bitmap of a map.
#[derive(Clone, Copy)]
pub enum Bitmap {
    /// The font of the labels, where there is one.
    OnlyFont,
    /// The font of a number, counted from 1, where there are several.
    Font(usize),
    /// The symbol of a number, counted from 1.
    Symbol(usize),
}

/// A bitmap that smoothed pictures show too small.
#[derive(Clone, Copy)]
pub struct SmallBitmap {
    /// Which it is.
    pub bitmap: Bitmap,
    /// How many pixels a font is high, or the longer side of a symbol has.
    pub size: u16,
    /// How many of these a pixel of the picture has in both directions.
    pub factor: u8,
}

impl Bitmap {
    /// How many pixels of the picture it has at least that is shown large enough.
    pub(crate) fn least(self) -> u16
        ensures value { result ≡ least_of self }
        ensures most { result ≤ LEAST_HEIGHT }
    {
        match self {
            Bitmap::OnlyFont | Bitmap::Font(_) => LEAST_HEIGHT,
            Bitmap::Symbol(_) => LEAST_SIDE,
        }
    }
}

// Whether a map of a factor shows a bitmap of so many pixels too small.
fn is_small(factor: Factor, bitmap: Bitmap, size: u16) -> bool
    ensures { result ≡ is_small factor bitmap size }
{
    factor.times() > 1 && size < factor.fine(bitmap.least())
}

// Adds a bitmap of so many pixels, where it is shown too small.
fn add_small(
    out: &mut Vec<SmallBitmap>,
    factor: Factor,
    bitmap: Bitmap,
    size: u16,
) -> Result<(), AllocError>
    ensures { OnOk result (out.new.items ≡ out.old.items ++ small_bitmap factor bitmap size) }
{
    if is_small(factor, bitmap, size) {
        let factor = factor.times();
        out.push(SmallBitmap {
            bitmap,
            size,
            factor,
        })?;
    }
    Ok(())
}

// How many pixels a font is high.
fn height_of(font: &Font) -> u16
    ensures { result ≡ font.now.bounds.height }
{
    u16::from(font.get().bounds.height)
}

// Adds those of some fonts that are shown too small. The first has the number 1.
fn add_numbered(
    out: &mut Vec<SmallBitmap>,
    factor: Factor,
    fonts: &[Font],
) -> Result<(), AllocError>
    ensures { OnOk result (out.new.items ≡ out.old.items ++ numbered_fonts factor 1 fonts.now) }
{
    for (index, font) in fonts.iter().enumerate() {
        add_small(out, factor, Bitmap::Font(index + 1), height_of(font))?;
    }
    Ok(())
}

// Adds those of a map's fonts that are shown too small.
fn add_fonts(out: &mut Vec<SmallBitmap>, factor: Factor, fonts: &[Font]) -> Result<(), AllocError>
    ensures { OnOk result (out.new.items ≡ out.old.items ++ small_fonts factor fonts.now) }
{
    match fonts {
        [font] => add_small(out, factor, Bitmap::OnlyFont, height_of(font)),
        _ => add_numbered(out, factor, fonts),
    }
}

// How many pixels the longer side of a pixmap has.
fn longer_side(pixmap: &Pixmap) -> u16
    ensures { result ≡ max pixmap.now.width pixmap.now.height }
{
    let fields = pixmap.get();
    fields.width.max(fields.height)
}

// Adds the symbol of a number if it is a pixmap that is shown too small.
fn add_symbol(
    out: &mut Vec<SmallBitmap>,
    factor: Factor,
    number: usize,
    shape: &SymbolShape,
) -> Result<(), AllocError>
    ensures { OnOk result (out.new.items ≡ out.old.items ++ small_symbol factor number shape.now) }
{
    match shape {
        SymbolShape::Pixmap(pixmap) => {
            add_small(out, factor, Bitmap::Symbol(number), longer_side(pixmap))
        }
        SymbolShape::Disc => Ok(()),
    }
}

// Adds those of some symbols that are shown too small. The first has the number 1.
fn add_symbols(
    out: &mut Vec<SmallBitmap>,
    factor: Factor,
    symbols: &[Symbol],
) -> Result<(), AllocError>
    ensures { OnOk result (out.new.items ≡ out.old.items ++ small_symbols factor 1 symbols.now) }
{
    for (index, symbol) in symbols.iter().enumerate() {
        add_symbol(out, factor, index + 1, &symbol.shape)?;
    }
    Ok(())
}

/// The bitmaps of a map that its smoothed pictures show too small: fonts first, and then symbols, both in their order. A map
/// that isn't smoothed has none. The error is that memory was refused.
pub fn small_bitmaps(alloc: Global, map: &Map) -> Result<Vec<SmallBitmap>, AllocError>
    ensures { IfOk result (λ found. found.items ≡ small_bitmaps map.now) }
{
    let map = map.get();
    let mut out = Vec::new(alloc);
    add_fonts(&mut out, map.smoothing, map.fonts.as_slice())?;
    add_symbols(&mut out, map.smoothing, map.symbols.as_slice())?;
    Ok(out)
}
