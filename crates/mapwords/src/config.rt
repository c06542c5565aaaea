ghost use Rattle.std.specs.Prelude.{◌≡◌, option_map, Ok, IfOk, MatchResult};
ghost use Rattle.std.specs.Option.{ok_or};
ghost use Rattle.mapwords.specs.declared.fault.ParseKind.TheVariants.{WrongValue};
ghost use Rattle.mapwords.specs.declared.value.Value.TheVariants as ValueTree;
ghost use Rattle.mapwords.specs.declared.value.ValueStep.TheVariants.{Whole};
ghost use Rattle.mapwords.specs.Fault.{IsErrorOf, fault_of};
ghost use Rattle.mapwords.specs.Value.{named, setting_of, config_step, font_name_at};

use crate::fault::{ParseFault, ParseKind, fault_of};
use crate::font::{FontKey, after_labelfont, font_name, font_name_of};
use crate::named::Named;
use crate::role::Expected;
use crate::value::{Value, ValueStep, is_value};
use mapdefs::{Duplicate, Text};
use maplex::Token;
use std::alloc::{AllocError, Global};

// What comes after a key of a CONFIG that has no name of a font. Two are followed by what is offered, and one by how many times
// as fine the pictures are that are averaged.
fn setting_of(key: &str) -> Expected
    ensures { result ≡ setting_of key.now }
{
    if key == "LABELFONT" {
        Expected::FontFile(FontKey::Default)
    } else if key == "WMS_FORMATS" {
        Expected::Formats
    } else if key == "WMS_CRS" {
        Expected::Systems
    } else if key == "WMS_SMOOTHING" {
        Expected::Smoothing
    } else {
        Expected::Unused(0)
    }
}

/// Reads the key of a CONFIG.
pub fn config_step(token: &Token, alloc: Global) -> Result<ValueStep, ParseFault>
    ensures { let read = ok_or (config_step token.now.text) (fault_of WrongValue token.now) in
        MatchResult result (λ step. read ≡ Ok step) (IsErrorOf read) }
{
    let Some(text) = after_labelfont(token.text) else {
        return Ok(ValueStep::More(setting_of(token.text)));
    };
    match font_name(text) {
        Some(name) => {
            let name = Text::from_str(alloc, name)?;
            Ok(ValueStep::More(Expected::FontFile(FontKey::Named(name))))
        }
        None => Err(fault_of(ParseKind::WrongValue, token).into()),
    }
}

/// The name of the font whose file comes after the token, if that is a key with one.
pub fn font_name_at<'a>(expected: &Expected, token: &Token<'a>) -> Option<&'a str>
    ensures { option_map (λ x. x.now) result ≡ font_name_at expected.now token.now }
{
    match expected {
        Expected::ConfigKey if is_value(token) => font_name_of(token.text),
        _ => None,
    }
}

/// Reads the name of the file of a font.
pub fn font_step(key: &FontKey, token: &Token, alloc: Global) -> Result<ValueStep, AllocError>
    ensures { IfOk result (λ step. step ≡ Whole (ValueTree.Font key.now (named token.now.text token.now.line))) }
{
    let file = Named::read(alloc, token.text, token.line)?;
    Ok(ValueStep::Whole(Value::Font(key.duplicate(alloc)?, file)))
}
