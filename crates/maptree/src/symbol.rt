ghost use Rattle.std.specs.Prelude.{◌≡◌, option_map, MatchResult, Ok};
ghost use Rattle.mapwords.specs.Fault.{IsErrorOf};
ghost use Rattle.mapwords.specs.declared.fault.ParseKind.TheVariants.{WrongValue};
ghost use Rattle.maptree.specs.End.{finished_symbol};
ghost use Rattle.maptree.specs.Symbol.{has_form, has_symbol, named_fault, symbol_of, style_fault, class_fault, layer_fault, symbols_fault};

use crate::tree::{ClassTree, LayerTree, SymbolTree};
use mapdefs::Duplicate;
use maplex::Token;
use mapvalues::Values;
use mapwords::{Fault, Named, ParseFault, ParseKind, SymbolType, TextKeyword, fault_of};
use std::alloc::Global;

// Whether one of the symbols has the name.
fn has_symbol(symbols: &[SymbolTree], name: &str) -> bool
    ensures { result ≡ has_symbol symbols.now name.now }
{
    symbols
        .iter()
        .any(|symbol| symbol.name.text.as_str() == name)
}

/// The symbol that a style names, if it names one: its last SYMBOL, which may be 0 for none.
pub fn symbol_of(style: &Values) -> Option<&Named>
    ensures { option_map (λ x. x.now) result ≡ symbol_of style.now }
{
    match style.text(TextKeyword::Symbol) {
        Some(named) if named.text.as_str() != "0" => Some(named),
        _ => None,
    }
}

// The fault of a name that none of the symbols has.
fn style_fault(symbols: &[SymbolTree], style: &Values) -> Option<Fault>
    ensures { result ≡ style_fault symbols.now style.now }
{
    match symbol_of(style) {
        Some(named) if !has_symbol(symbols, named.text.as_str()) => Some(Fault {
            line: named.line,
            kind: ParseKind::WrongValue,
        }),
        _ => None,
    }
}

// The fault of the first style of a class that names no symbol.
fn class_fault(symbols: &[SymbolTree], class: &ClassTree) -> Option<Fault>
    ensures { result ≡ class_fault symbols.now class.now }
{
    for style in class.styles.as_slice() {
        if let Some(fault) = style_fault(symbols, style) {
            return Some(fault);
        }
    }
    None
}

// The fault of the first style of a layer that names no symbol.
fn layer_fault(symbols: &[SymbolTree], layer: &LayerTree) -> Option<Fault>
    ensures { result ≡ layer_fault symbols.now layer.now }
{
    for class in layer.body.classes.as_slice() {
        if let Some(fault) = class_fault(symbols, class) {
            return Some(fault);
        }
    }
    None
}

/// The fault of the first style, in the order of the mapfile, that names a symbol which the map doesn't
/// have.
pub fn symbols_fault(symbols: &[SymbolTree], layers: &[LayerTree]) -> Option<Fault>
    ensures { result ≡ symbols_fault symbols.now layers.now }
{
    for layer in layers {
        if let Some(fault) = layer_fault(symbols, layer) {
            return Some(fault);
        }
    }
    None
}

// Whether the values of a SYMBOL draw a disc.
fn has_form(values: &Values) -> bool
    ensures { result ≡ has_form values.now }
{
    values.has_radii() && values.has_filled()
}

/// The symbol with its values at its END, which has a NAME and a TYPE: a pixmap also an IMAGE, a disc its POINTS and FILLED, and
/// no IMAGE.
pub fn finished_symbol(
    values: &Values,
    end: &Token,
    alloc: Global,
) -> Result<SymbolTree, ParseFault>
    ensures { MatchResult result
        (λ symbol. finished_symbol values.now end.now ≡ Ok symbol)
        (IsErrorOf (finished_symbol values.now end.now)) }
{
    let (Some(name), Some(symbol_type)) = (values.text(TextKeyword::Name), values.symbol_type())
    else {
        return Err(fault_of(ParseKind::MissingValue, end).into());
    };
    let image = match (symbol_type, values.text(TextKeyword::Image)) {
        (SymbolType::Pixmap, Some(image)) => Some(image.duplicate(alloc)?),
        (SymbolType::Ellipse, None) if has_form(values) => None,
        (SymbolType::Ellipse, Some(image)) if has_form(values) => {
            return Err(wrong_image(image).into());
        }
        _ => return Err(fault_of(ParseKind::MissingValue, end).into()),
    };
    Ok(SymbolTree {
        name: name.duplicate(alloc)?,
        image,
    })
}

// The fault of a disc's image.
fn wrong_image(image: &Named) -> Fault
    ensures { result ≡ record { line = image.now.line; kind = WrongValue } }
{
    Fault {
        line: image.line,
        kind: ParseKind::WrongValue,
    }
}

/// The keyword that a SYMBOL lacks of those that its END requires, if it lacks one.
pub fn missing_of_symbol(values: &Values) -> Option<&'static str> {
    if values.text(TextKeyword::Name).is_none() {
        return Some("NAME");
    }
    match values.symbol_type() {
        None => Some("TYPE"),
        Some(SymbolType::Pixmap) if values.text(TextKeyword::Image).is_none() => Some("IMAGE"),
        Some(SymbolType::Ellipse) if !values.has_radii() => Some("POINTS"),
        Some(SymbolType::Ellipse) if !values.has_filled() => Some("FILLED"),
        Some(SymbolType::Pixmap | SymbolType::Ellipse) => None,
    }
}
