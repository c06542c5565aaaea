ghost use Rattle.std.specs.Prelude.{◌≡◌, ◌<◌, length, map, IfOk, MatchOption, MatchResult, Ok};
ghost use Rattle.std.specs.List.{slice_split, position_or_len, before_first, after_first};
ghost use Rattle.mapwords.specs.Fault.{IsErrorOf};
ghost use Rattle.mapwords.specs.Rule.{is_comma};
ghost use Rattle.mapwords.specs.Setting.{web_expects, layer_expects, pair_expects, setting_in, names_step, keyed_step, setting_step};

use crate::capped::Capped;
use crate::fault::{ParseFault, ParseKind, fault_of};
use crate::named::Named;
use crate::role::{Block, Expected};
use crate::table::TextKeyword;
use crate::texts::{comma_count, comma_parts, texts_of};
use crate::value::{Value, ValueStep};
use mapdefs::MAX_ITEMS;
use maplex::Token;
use std::alloc::Global;

// What the key of a WEB's METADATA takes.
fn web_expects(key: &str) -> Expected
    ensures { result ≡ web_expects key.now }
{
    if key == "wms_title" {
        Expected::Text(TextKeyword::WmsTitle)
    } else if key == "ows_title" {
        Expected::Text(TextKeyword::OwsTitle)
    } else if key == "wms_onlineresource" {
        Expected::Text(TextKeyword::WmsOnlineResource)
    } else if key == "ows_onlineresource" {
        Expected::Text(TextKeyword::OwsOnlineResource)
    } else {
        Expected::Unused(0)
    }
}

// What the key of a LAYER's METADATA takes.
fn layer_expects(key: &str) -> Expected
    ensures { result ≡ layer_expects key.now }
{
    if key == "wms_title" {
        Expected::Text(TextKeyword::WmsTitle)
    } else if key == "ows_title" {
        Expected::Text(TextKeyword::OwsTitle)
    } else {
        Expected::Unused(0)
    }
}

/// What a key takes in a block of keys and values.
pub fn pair_expects(block: Block, key: &str) -> Expected
    ensures { result ≡ pair_expects block key.now }
{
    match block {
        Block::WebMetadata => web_expects(key),
        Block::LayerMetadata => layer_expects(key),
        _ => Expected::Unused(0),
    }
}

// The key and the value of a setting, if it has an equals sign.
fn setting_in(text: &str) -> Option<(&str, &str)>
    ensures { MatchOption result
        (setting_in text.now ≡ None)
        (λ parts. setting_in text.now ≡ Some (parts.0.now, parts.1.now)) }
{
    text.split_once('=')
}

// The names of items, of which a layer may have so many.
fn names_step(names: &str, token: &Token, alloc: Global) -> Result<ValueStep, ParseFault>
    ensures { MatchResult result
        (λ step. names_step (slice_split is_comma names.now) token.now ≡ Ok step)
        (IsErrorOf (names_step (slice_split is_comma names.now) token.now)) }
{
    if comma_count(names) > MAX_ITEMS {
        return Err(fault_of(ParseKind::Limit, token).into());
    }
    let names = comma_parts(names, alloc)?;
    let items = texts_of(&names, alloc)?;
    Ok(ValueStep::Whole(Value::Items(Capped::of(items))))
}

// A setting of this key.
fn keyed_step(key: &str, value: &str, token: &Token, alloc: Global) -> Result<ValueStep, ParseFault>
    ensures { MatchResult result
        (λ step. keyed_step key.now value.now token.now ≡ Ok step)
        (IsErrorOf (keyed_step key.now value.now token.now)) }
{
    if key == "ITEMS" {
        return names_step(value, token, alloc);
    }
    if key == "CSV_X" {
        let column = Named::read(alloc, value, token.line)?;
        return Ok(ValueStep::Whole(Value::Text(TextKeyword::CsvX, column)));
    }
    if key == "CSV_Y" {
        let column = Named::read(alloc, value, token.line)?;
        return Ok(ValueStep::Whole(Value::Text(TextKeyword::CsvY, column)));
    }
    Ok(ValueStep::Whole(Value::Nothing))
}

/// Reads a setting of a layer.
pub fn setting_step(token: &Token, alloc: Global) -> Result<ValueStep, ParseFault>
    ensures { MatchResult result
        (λ step. setting_step token.now ≡ Ok step)
        (IsErrorOf (setting_step token.now)) }
{
    match setting_in(token.text) {
        Some((key, value)) => keyed_step(key, value, token, alloc),
        None => Ok(ValueStep::Whole(Value::Nothing)),
    }
}
