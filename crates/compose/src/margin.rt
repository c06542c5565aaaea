ghost use Rattle.std.specs.Prelude.{◌≡◌, ◌≤◌, max};
ghost use Rattle.compose.specs.Near.{furthest, margin_of, reach_of, side_of, symbol_reach};
ghost use Rattle.mapdefs.specs.declared.limits.TheConstants.{MAX_FINE_SQUARE, MAX_SYMBOL_SIDE};

use geom::Factor;
use mapdefs::{LayerFields, Style, Symbol, SymbolShape};

// The greater side of a symbol's pixmap. A disc has the size of its style.
fn side_of(symbol: &SymbolShape) -> u16
    ensures value { result ≡ side_of symbol.now }
    ensures most { result ≤ MAX_SYMBOL_SIDE }
{
    match symbol {
        SymbolShape::Disc => 0,
        SymbolShape::Pixmap(pixmap) => {
            let fields = pixmap.get();
            fields.width.max(fields.height)
        }
    }
}

// How far the symbol at an index paints from a point at most, beside the size of its style.
fn reach_of_symbol(symbols: &[Symbol], index: Option<usize>) -> u16
    ensures value { result ≡ symbol_reach symbols.now index }
    ensures most { result ≤ MAX_SYMBOL_SIDE }
{
    match index {
        Some(index) => match symbols.get(index) {
            Some(symbol) => side_of(&symbol.shape),
            None => 0,
        },
        None => 0,
    }
}

// How far a style paints from a point at most.
fn reach_of(factor: Factor, symbols: &[Symbol], style: &Style) -> u16
    ensures value { result ≡ reach_of factor symbols.now style.now }
    ensures most { result ≤ MAX_FINE_SQUARE }
{
    let style = style.get();
    factor
        .fine(u16::from(style.width))
        .max(factor.fine(style.size))
        .max(reach_of_symbol(symbols, style.symbol))
}

// The greater of a reach and the furthest that some styles paint.
fn further(most: u16, factor: Factor, symbols: &[Symbol], styles: &[Style]) -> u16
    requires { most ≤ MAX_FINE_SQUARE }
    ensures value { result ≡ max most (furthest factor symbols.now styles.now) }
    ensures most { result ≤ MAX_FINE_SQUARE }
{
    let mut found = most;
    for style in styles {
        found = found.max(reach_of(factor, symbols, style));
    }
    found
}

/// The furthest that the styles of a layer's classes paint from a point, where a map's pixel is so many of the picture's: the
/// greatest of their widths, their sizes and the sides of their symbols.
pub fn margin_of(factor: Factor, symbols: &[Symbol], layer: &LayerFields) -> u16
    ensures value { result ≡ margin_of factor symbols.now layer.now }
    ensures most { result ≤ MAX_FINE_SQUARE }
{
    let mut found = 0;
    for class in layer.classes.as_slice() {
        found = further(found, factor, symbols, class.get().styles.as_slice());
    }
    found
}
