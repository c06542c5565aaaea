ghost use Rattle.std.specs.Prelude.{◌≡◌};
ghost use Rattle.mapwords.specs.Symbol.{pixmap_step, type_step, is_one, radii_step, filled_step, is_early_end};

use crate::keyword::is_end;
use crate::number::read_number;
use crate::role::Expected;
use crate::value::{Value, ValueStep};
use geom::Micro;
use maplex::Token;

/// What a symbol draws, by the word of its TYPE.
#[derive(Clone, Copy)]
pub enum SymbolType {
    /// The pixmap of its IMAGE.
    Pixmap,
    /// A disc, of a smoothed map alone.
    Ellipse,
}

/// Reads the type of a symbol.
pub fn pixmap_step(text: &str) -> Option<ValueStep>
    ensures { result ≡ pixmap_step text.now }
{
    if text.eq_ignore_ascii_case("PIXMAP") {
        Some(ValueStep::Whole(Value::SymbolType(SymbolType::Pixmap)))
    } else {
        None
    }
}

/// Reads the type of a symbol of a smoothed map.
pub fn type_step(text: &str) -> Option<ValueStep>
    ensures { result ≡ type_step text.now }
{
    if text.eq_ignore_ascii_case("ELLIPSE") {
        Some(ValueStep::Whole(Value::SymbolType(SymbolType::Ellipse)))
    } else {
        pixmap_step(text)
    }
}

// Whether it is the number 1.
fn is_one(number: Option<Micro>) -> bool
    ensures { result ≡ is_one number }
{
    match number {
        Some(number) => number.millionths() == 1_000_000,
        None => false,
    }
}

/// Reads one of the radii of a disc, of which so many are to come, or the END after them.
pub fn radii_step(left: u8, token: &Token) -> Option<ValueStep>
    ensures { result ≡ radii_step left token.now }
{
    match left.checked_sub(1) {
        Some(fewer) if is_one(read_number(token.text)) => {
            Some(ValueStep::More(Expected::Radii(fewer)))
        }
        None if is_end(token) => Some(ValueStep::Whole(Value::Radii)),
        _ => None,
    }
}

/// Reads that a disc is filled.
pub fn filled_step(text: &str) -> Option<ValueStep>
    ensures { result ≡ filled_step text.now }
{
    if text.eq_ignore_ascii_case("TRUE") {
        Some(ValueStep::Whole(Value::Filled))
    } else {
        None
    }
}

/// Whether the token is an END that stands where a value should. After the radii of a disc it should stand there itself.
pub fn is_early_end(expected: &Expected, token: &Token) -> bool
    ensures { result ≡ is_early_end expected.now token.now }
{
    match expected {
        Expected::Radii(0) => false,
        _ => is_end(token),
    }
}
