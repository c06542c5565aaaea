ghost use Rattle.std.specs.Prelude.{◌≡◌, ◌<◌, All, length, map as each, Ok, IfOk, IfSome, MatchResult};
ghost use Rattle.std.specs.List.{list_all};
ghost use Rattle.std.specs.Option.{option_copied};
ghost use Rattle.wmsquery.specs.declared.fault.Parameter.TheVariants as parameter;
ghost use Rattle.wmsquery.specs.Pairs.{names_in, names_of};
ghost use Rattle.wmsquery.specs.Reading.{IsErrorOf, checked};
ghost use Rattle.wmsquery.specs.Values.{layer_named, listed, defined, indices_of, layers_of, is_default, style_list, absent, styles_of, is_among, is_queryable, asked, asked_of};

use crate::error::QueryError;
use crate::fault::{Code, Parameter, checked};
use mapdefs::{Items, Map};
use operations::Operation;
use std::alloc::{AllocError, Global};

/// The most names of LAYERS, and of QUERY_LAYERS.
pub const MAX_NAMES: usize = 64;

// The names of a list with commas between them.
fn names_in(alloc: Global, text: &str) -> Result<Vec<&str>, AllocError>
    ensures { IfOk result (λ found. each (λ x. x.now) found.items ≡ names_in text.now) }
{
    text.split(',').collect(alloc)
}

/// The names that a parameter lists, none where it is missing.
pub fn names_of(alloc: Global, text: Option<&str>) -> Result<Vec<&str>, AllocError>
    ensures { IfOk result (λ found. each (λ x. x.now) found.items ≡ names_of (option_copied text.entry)) }
{
    match text {
        Some(text) => names_in(alloc, text),
        None => Ok(Vec::new(alloc)),
    }
}

// The index of the layer with a name, where the layer is switched on.
fn layer_named(map: &Map, name: &str) -> Option<usize>
    ensures value { result ≡ layer_named map.now name.now }
    ensures within { IfSome result (λ index. index < length map.now.layers) }
{
    if name.is_empty() {
        return None;
    }
    let index = map.find(name.as_bytes())?;
    let layers = map.get().layers.as_slice();
    if layers.get(index)?.get().on {
        Some(index)
    } else {
        None
    }
}

// Refuses a count of names that may not be listed.
fn listed(count: usize) -> Result<(), Code>
    ensures { result ≡ listed count }
{
    match count {
        0 => Err(Code::MissingParameterValue),
        1..=MAX_NAMES => Ok(()),
        _ => Err(Code::InvalidParameterValue),
    }
}

// The index of the layer with a name, which has to be defined.
fn defined(map: &Map, name: &str) -> Result<usize, Code>
    ensures value { result ≡ defined map.now name.now }
    ensures within { IfOk result (λ index. index < length map.now.layers) }
{
    layer_named(map, name).ok_or(Code::LayerNotDefined)
}

// The indices of the layers with some names.
fn indices(alloc: Global, map: &Map, names: &[&str]) -> Result<Items<usize>, QueryError>
    ensures value { MatchResult result
        (λ found. indices_of (defined map.now) (each (λ x. x.now) names.now) ≡ Ok found)
        (IsErrorOf (checked parameter.Layers (indices_of (defined map.now) (each (λ x. x.now) names.now)))) }
    ensures within { IfOk result (All (λ index. index < length map.now.layers)) }
{
    let mut found = Items::new(alloc);
    for name in names {
        let index = checked(Parameter::Layers, defined(map, name))?;
        found.push(index)?;
    }
    Ok(found)
}

/// The indices of the layers that LAYERS lists.
pub fn layers(alloc: Global, map: &Map, names: &[&str]) -> Result<Items<usize>, QueryError>
    ensures value { MatchResult result
        (λ found. layers_of map.now (each (λ x. x.now) names.now) ≡ Ok found)
        (IsErrorOf (checked parameter.Layers (layers_of map.now (each (λ x. x.now) names.now)))) }
    ensures within { IfOk result (All (λ index. index < length map.now.layers)) }
{
    checked(Parameter::Layers, listed(names.len()))?;
    indices(alloc, map, names)
}

// Whether an entry of STYLES is the default style.
fn is_default(entry: &str) -> bool
    ensures { result ≡ is_default entry.now }
{
    entry.is_empty() || entry == "default"
}

// Whether all entries of STYLES are the default style.
fn are_default(entries: &[&str]) -> bool
    ensures { result ≡ list_all is_default (each (λ x. x.now) entries.now) }
{
    for entry in entries {
        if !is_default(entry) {
            return false;
        }
    }
    true
}

// What the entries of STYLES mean for that many layers.
fn style_list(count: usize, entries: &[&str]) -> Result<(), Code>
    ensures { result ≡ style_list count (each (λ x. x.now) entries.now) }
{
    if entries.len() != count {
        Err(Code::InvalidParameterValue)
    } else if are_default(entries) {
        Ok(())
    } else {
        Err(Code::StyleNotDefined)
    }
}

/// The default of a parameter of GetMap that is missing, if the operation doesn't require it.
pub fn absent<T: Drop>(operation: Operation, default: T) -> Result<T, Code>
    ensures { result ≡ absent operation default }
{
    match operation {
        Operation::Information => Ok(default),
        Operation::Map | Operation::Capabilities => Err(Code::MissingParameterValue),
    }
}

/// What STYLES means for that many layers.
pub fn styles(
    alloc: Global,
    operation: Operation,
    count: usize,
    text: Option<&str>,
) -> Result<Result<(), Code>, AllocError>
    ensures { IfOk result (λ meant. meant ≡ styles_of operation count (option_copied text.entry)) }
{
    let Some(text) = text else {
        return Ok(absent(operation, ()));
    };
    if text.is_empty() {
        return Ok(Ok(()));
    }
    let entries = names_in(alloc, text)?;
    Ok(style_list(count, &entries))
}

// Whether a name is among others.
fn is_among(name: &str, names: &[&str]) -> bool
    ensures { result ≡ is_among name.now (each (λ x. x.now) names.now) }
{
    for other in names {
        if name == *other {
            return true;
        }
    }
    false
}

// Whether the features of the layer at an index may be requested.
fn is_queryable(map: &Map, index: usize) -> bool
    ensures { result ≡ is_queryable map.now index }
{
    match map.get().layers.as_slice().get(index) {
        Some(layer) => layer.get().queryable,
        None => false,
    }
}

// The index of the layer with a name that QUERY_LAYERS lists. `names` are the names that LAYERS lists.
fn asked(map: &Map, names: &[&str], name: &str) -> Result<usize, Code>
    ensures value { result ≡ asked map.now (each (λ x. x.now) names.now) name.now }
    ensures within { IfOk result (λ index. index < length map.now.layers) }
{
    let index = defined(map, name)?;
    if !is_among(name, names) {
        Err(Code::LayerNotDefined)
    } else if is_queryable(map, index) {
        Ok(index)
    } else {
        Err(Code::LayerNotQueryable)
    }
}

// The indices of the layers with names that QUERY_LAYERS lists. `names` are the names that LAYERS lists.
fn asked_indices(
    alloc: Global,
    map: &Map,
    names: &[&str],
    queried: &[&str],
) -> Result<Items<usize>, QueryError>
    ensures value { let indices = indices_of (asked map.now (each (λ x. x.now) names.now)) (each (λ x. x.now) queried.now) in
        MatchResult result (λ found. indices ≡ Ok found) (IsErrorOf (checked parameter.QueryLayers indices)) }
    ensures within { IfOk result (All (λ index. index < length map.now.layers)) }
{
    let mut found = Items::new(alloc);
    for name in queried {
        let index = checked(Parameter::QueryLayers, asked(map, names, name))?;
        found.push(index)?;
    }
    Ok(found)
}

/// The indices of the layers that QUERY_LAYERS lists. `names` are the names that LAYERS lists.
pub fn asked_layers(
    alloc: Global,
    map: &Map,
    names: &[&str],
    queried: &[&str],
) -> Result<Items<usize>, QueryError>
    ensures value { MatchResult result
        (λ found. asked_of map.now (each (λ x. x.now) names.now) (each (λ x. x.now) queried.now) ≡ Ok found)
        (IsErrorOf (checked parameter.QueryLayers (asked_of map.now (each (λ x. x.now) names.now) (each (λ x. x.now) queried.now)))) }
    ensures within { IfOk result (All (λ index. index < length map.now.layers)) }
{
    checked(Parameter::QueryLayers, listed(queried.len()))?;
    asked_indices(alloc, map, names, queried)
}
