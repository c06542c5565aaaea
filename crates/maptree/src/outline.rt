ghost use Rattle.std.specs.Prelude.{◌≡◌, ◌≤◌, IfSome, option_map, option_and_then};
ghost use Rattle.mapdefs.specs.declared.limits.TheConstants.{MAX_OUTLINE_WIDTH};
ghost use Rattle.std.specs.Option.{option_or};
ghost use Rattle.maptree.specs.Smoothing.{discs_fault};
ghost use Rattle.maptree.specs.Symbol.{first_fault};
ghost use Rattle.maptree.specs.Outline.{class_width_fault, label_width_fault, layer_width_fault, map_fault, outline_width_of, width_fault, width_in, widths_fault};

use crate::smoothing::{discs_fault, is_smooth};
use crate::symbol::symbols_fault;
use crate::tree::{ClassTree, LayerTree, MapTree};
use mapvalues::Values;
use mapwords::{Count, CountKeyword, Fault, Named, ParseKind, TextKeyword};

// The width that a text is, if it is one.
fn width_in(named: &Named) -> Option<u16>
    ensures value { result ≡ width_in named.now }
    ensures bounds { IfSome result (λ n. (1 ≤ n) × (n ≤ MAX_OUTLINE_WIDTH)) }
{
    let keyword = CountKeyword::OutlineWidth;
    let count = Count::read(keyword, named.text.as_str())?;
    count.of(keyword)
}

/// The width of a label's outline, in pixels: its last OUTLINEWIDTH, if that is one of 1 to `MAX_OUTLINE_WIDTH`.
pub fn outline_width_of(label: &Values) -> Option<u16>
    ensures value { result ≡ outline_width_of label.now }
    ensures bounds { IfSome result (λ n. (1 ≤ n) × (n ≤ MAX_OUTLINE_WIDTH)) }
{
    width_in(label.text(TextKeyword::OutlineWidth)?)
}

// The fault of a label's last OUTLINEWIDTH.
fn label_width_fault(label: &Values) -> Option<Fault>
    ensures { result ≡ label_width_fault label.now }
{
    let named = label.text(TextKeyword::OutlineWidth)?;
    match width_in(named) {
        Some(_) => None,
        None => Some(Fault {
            line: named.line,
            kind: ParseKind::WrongValue,
        }),
    }
}

// The fault of the OUTLINEWIDTH of a class's label.
fn class_width_fault(class: &ClassTree) -> Option<Fault>
    ensures { result ≡ class_width_fault class.now }
{
    match &class.label {
        Some(label) => label_width_fault(label),
        None => None,
    }
}

// The fault of the first class of a layer whose label has one.
fn layer_width_fault(layer: &LayerTree) -> Option<Fault>
    ensures { result ≡ layer_width_fault layer.now }
{
    for class in layer.body.classes.as_slice() {
        if let Some(fault) = class_width_fault(class) {
            return Some(fault);
        }
    }
    None
}

// The fault of the first layer, in the order of the mapfile, of which a label has one, where the map is smoothed.
fn widths_fault(given: &Values, layers: &[LayerTree]) -> Option<Fault>
    ensures { result ≡ widths_fault given.now layers.now }
{
    if is_smooth(given) {
        first_width_fault(layers)
    } else {
        None
    }
}

// The fault of the first layer that has one.
fn first_width_fault(layers: &[LayerTree]) -> Option<Fault>
    ensures { result ≡ first_fault layer_width_fault layers.now }
{
    for layer in layers {
        if let Some(fault) = layer_width_fault(layer) {
            return Some(fault);
        }
    }
    None
}

// What is wrong with discs in a map that isn't smoothed, or else with the outlines of a smoothed one.
fn smooth_fault(map: &MapTree) -> Option<Fault>
    ensures { result ≡ option_or (discs_fault map.now.values map.now.symbols) (widths_fault map.now.values map.now.layers) }
{
    match discs_fault(&map.values, map.symbols.as_slice()) {
        Some(fault) => Some(fault),
        None => widths_fault(&map.values, map.layers.as_slice()),
    }
}

/// What is wrong at the END of MAP: a style that names no symbol, or else a disc where the map isn't smoothed, or a label whose
/// outline has no width in a smoothed map.
pub fn map_fault(map: &MapTree) -> Option<Fault>
    ensures { result ≡ map_fault map.now.values map.now.symbols map.now.layers }
{
    match symbols_fault(map.symbols.as_slice(), map.layers.as_slice()) {
        Some(fault) => Some(fault),
        None => smooth_fault(map),
    }
}
