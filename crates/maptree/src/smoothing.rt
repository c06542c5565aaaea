ghost use Rattle.std.specs.Prelude.{◌≡◌};
ghost use Rattle.maptree.specs.Smoothing.{disc_fault, discs_fault, factor_in, has_disc, is_disc, is_smooth};

use crate::tree::SymbolTree;
use geom::Factor;
use mapvalues::Values;
use mapwords::{Fault, ParseKind, Smoothing};

/// How many times as fine the pictures of a map with these values are.
pub fn factor_in(given: &Values) -> Factor
    ensures { result ≡ factor_in given.now }
{
    match given.smoothing() {
        Some(smoothing) => smoothing.factor,
        None => Factor::of(1),
    }
}

/// Whether the pictures of a map with these values are smoothed.
pub fn is_smooth(given: &Values) -> bool
    ensures { result ≡ is_smooth given.now }
{
    factor_in(given).times() > 1
}

// Whether a symbol is a disc.
fn is_disc(symbol: &SymbolTree) -> bool
    ensures { result ≡ is_disc symbol.now }
{
    symbol.image.is_none()
}

// Whether one of the symbols is a disc.
fn has_disc(symbols: &[SymbolTree]) -> bool
    ensures { result ≡ has_disc symbols.now }
{
    symbols.iter().any(|symbol| is_disc(symbol))
}

// The fault of a smoothing of a map with these symbols.
fn disc_fault(symbols: &[SymbolTree], smoothing: Smoothing) -> Option<Fault>
    ensures { result ≡ disc_fault symbols.now smoothing }
{
    if smoothing.factor.times() > 1 {
        return None;
    }
    if has_disc(symbols) {
        Some(Fault {
            line: smoothing.line,
            kind: ParseKind::WrongValue,
        })
    } else {
        None
    }
}

/// The fault of a map that has discs, but isn't smoothed.
pub fn discs_fault(given: &Values, symbols: &[SymbolTree]) -> Option<Fault>
    ensures { result ≡ discs_fault given.now symbols.now }
{
    disc_fault(symbols, given.smoothing()?)
}
