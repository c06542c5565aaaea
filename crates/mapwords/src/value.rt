ghost use Rattle.std.specs.Prelude.{◌≡◌, option_map, Ok, MatchResult};
ghost use Rattle.mapwords.specs.declared.value.ValueStep.TheVariants.{Whole, More};
ghost use Rattle.mapwords.specs.Fault.{IsErrorOf};
ghost use Rattle.mapwords.specs.declared.value.Value.TheVariants as ValueTree;
ghost use Rattle.mapwords.specs.Colour.{component_of};
ghost use Rattle.mapwords.specs.Value.{geometry_of, is_value, hex_at, colour_step, green_step, blue_step, only_text, only_step, unused_step, west_step, south_step, east_step, north_step, is_table_name, table_step, rule_step, plain_step, step_in, may_take, value_step, coordinate_in};

use crate::capped::Capped;
use crate::colour::{Component, hex_colour, rgb_of};
use crate::config::{config_step, font_step};
use crate::count::Count;
use crate::extent::Extent;
use crate::fault::{ParseFault, ParseKind, fault_of};
use crate::font::FontKey;
use crate::label::{flag_of, position_of};
use crate::named::Named;
use crate::number::read_number;
use crate::offer::Offer;
use crate::role::Expected;
use crate::rule::{ClassRule, RuleError};
use crate::setting::setting_step;
use crate::smoothing::Smoothing;
use crate::symbol::{SymbolType, filled_step, pixmap_step, radii_step, type_step};
use crate::table::{ColourKeyword, FlagKeyword, OnlyWord, ScaleKeyword, TextKeyword};
use geom::{Coordinate, Micro};
use mapdefs::{Geometry, MAX_ITEMS, Position, Rgb, Text};
use maplex::{Shape, Token};
use std::alloc::Global;

/// A whole value, with its keyword.
#[derive(Drop)]
pub enum Value {
    Text(TextKeyword, Named),
    Count(Count),
    Flag(FlagKeyword, bool),
    Scale(ScaleKeyword, Micro),
    Colour(ColourKeyword, Option<Rgb>),
    Geometry(Geometry),
    SymbolType(SymbolType),
    /// The radii of a disc, which are 1 each.
    Radii,
    /// That a disc is filled.
    Filled,
    Position(Position),
    Rule(ClassRule),
    /// The names of a layer's items.
    Items(Capped<Text, MAX_ITEMS>),
    Extent(Extent),
    Smoothing(Smoothing),
    /// A font, and the name of the file that it is in.
    Font(FontKey, Named),
    /// The end of values that have no effect.
    Nothing,
}

/// How far a value is read after one of its tokens.
#[derive(Drop)]
pub enum ValueStep {
    /// The keyword expects more.
    More(Expected),
    /// The value is whole.
    Whole(Value),
}

/// Whether the token may be a value: a bare word or a quoted text.
pub fn is_value(token: &Token) -> bool
    ensures { result ≡ is_value token.now.shape }
{
    match token.shape {
        Shape::Word | Shape::Text => true,
        Shape::Logic | Shape::List => false,
    }
}

// The geometry that the text is.
fn geometry_of(text: &str) -> Option<Geometry>
    ensures { result ≡ geometry_of text.now }
{
    if text.eq_ignore_ascii_case("POINT") {
        Some(Geometry::Point)
    } else if text.eq_ignore_ascii_case("LINE") {
        Some(Geometry::Line)
    } else if text.eq_ignore_ascii_case("POLYGON") {
        Some(Geometry::Polygon)
    } else {
        None
    }
}

// The colour that the single token is. Only a quoted text is one.
fn hex_at(token: &Token) -> Option<Rgb>
    ensures { result ≡ hex_at token.now }
{
    match token.shape {
        Shape::Text => hex_colour(token.text),
        Shape::Word | Shape::Logic | Shape::List => None,
    }
}

// Reads a colour of one token, or the first of its three counts.
fn colour_step(keyword: ColourKeyword, token: &Token) -> Option<ValueStep>
    ensures { result ≡ colour_step keyword (hex_at token.now) (component_of token.now.text) }
{
    if let Some(colour) = hex_at(token) {
        return Some(ValueStep::Whole(Value::Colour(keyword, Some(colour))));
    }
    let red = Component::read(token.text)?;
    Some(ValueStep::More(Expected::Green(keyword, red)))
}

// Reads the green of a colour, which its blue follows.
fn green_step(keyword: ColourKeyword, red: Component, text: &str) -> Option<ValueStep>
    ensures { result ≡ green_step keyword red (component_of text.now) }
{
    let green = Component::read(text)?;
    Some(ValueStep::More(Expected::Blue(keyword, red, green)))
}

// Reads the blue of a colour, which is whole with it.
fn blue_step(
    keyword: ColourKeyword,
    red: Component,
    green: Component,
    text: &str,
) -> Option<ValueStep>
    ensures { result ≡ blue_step keyword red green (component_of text.now) }
{
    let colour = rgb_of(red, green, Component::read(text)?);
    Some(ValueStep::Whole(Value::Colour(keyword, colour)))
}

// The word that is the only value of a keyword.
fn only_text(word: OnlyWord) -> &'static str
    ensures { result.now ≡ only_text word }
{
    match word {
        OnlyWord::Pixels => "PIXELS",
        OnlyWord::On => "ON",
    }
}

// Reads the only word that a keyword takes.
fn only_step(word: OnlyWord, text: &str) -> Option<ValueStep>
    ensures { result ≡ only_step word text.now }
{
    if text.eq_ignore_ascii_case(only_text(word)) {
        Some(ValueStep::Whole(Value::Nothing))
    } else {
        None
    }
}

// The last step of a value.
fn whole(value: Option<Value>) -> Option<ValueStep>
    ensures { result ≡ option_map (λ v. Whole v) value }
{
    value.map(ValueStep::Whole)
}

// The last step of what a CONFIG offers.
fn offer_step(keyword: FlagKeyword, offered: Option<bool>) -> Option<ValueStep>
    ensures { result ≡ option_map (λ is. Whole (ValueTree.Flag keyword is)) offered }
{
    whole(offered.map(|is| Value::Flag(keyword, is)))
}

// Skips a value that has no effect, before so many more.
fn unused_step(more: u8) -> ValueStep
    ensures { result ≡ unused_step more }
{
    match more.checked_sub(1) {
        Some(fewer) => ValueStep::More(Expected::Unused(fewer)),
        None => ValueStep::Whole(Value::Nothing),
    }
}

// Reads the west of an extent, which its south follows.
fn west_step(west: Option<Coordinate>) -> Option<ValueStep>
    ensures { result ≡ west_step west }
{
    let minx = west?.get().millionths();
    Some(ValueStep::More(Expected::South(minx)))
}

// Reads the south of an extent, which its east follows.
fn south_step(minx: i64, south: Option<Coordinate>) -> Option<ValueStep>
    ensures { result ≡ south_step minx south }
{
    let miny = south?.get().millionths();
    Some(ValueStep::More(Expected::East(minx, miny)))
}

// Reads the east of an extent, which lies to the east of its west.
fn east_step(minx: i64, miny: i64, east: Option<Coordinate>) -> Option<ValueStep>
    ensures { result ≡ east_step minx miny east }
{
    let maxx = east?.get().millionths();
    if minx < maxx {
        Some(ValueStep::More(Expected::North(minx, miny, maxx)))
    } else {
        None
    }
}

// The last step of an extent.
fn extent_step(extent: Option<Extent>) -> Option<ValueStep>
    ensures { result ≡ option_map (λ area. Whole (ValueTree.Extent area)) extent }
{
    match extent {
        Some(extent) => Some(ValueStep::Whole(Value::Extent(extent))),
        None => None,
    }
}

// Reads the north of an extent, which lies to the north of its south.
fn north_step(minx: i64, miny: i64, maxx: i64, north: Option<Coordinate>) -> Option<ValueStep>
    ensures { result ≡ north_step minx miny maxx north }
{
    let maxy = north?.get();
    let (minx, miny, maxx) = (Micro::new(minx), Micro::new(miny), Micro::new(maxx));
    extent_step(Extent::of(minx, miny, maxx, maxy))
}

// Reads a token of a value of which nothing is kept but numbers.
fn plain_step(expected: &Expected, token: &Token) -> Option<ValueStep>
    ensures { result ≡ plain_step expected.now token.now }
{
    let text = token.text;
    match *expected {
        Expected::Geometry => whole(geometry_of(text).map(Value::Geometry)),
        Expected::Pixmap => pixmap_step(text),
        Expected::SymbolType => type_step(text),
        Expected::Radii(left) => radii_step(left, token),
        Expected::Filled => filled_step(text),
        Expected::Count(keyword) => whole(Count::read(keyword, text).map(Value::Count)),
        Expected::Position => whole(position_of(text).map(Value::Position)),
        Expected::Flag(keyword) => whole(flag_of(text).map(|flag| Value::Flag(keyword, flag))),
        Expected::Scale(keyword) => whole(read_number(text).map(|scale| Value::Scale(
            keyword, scale,
        ))),
        Expected::Colour(keyword) => colour_step(keyword, token),
        Expected::Green(keyword, red) => green_step(keyword, red, text),
        Expected::Blue(keyword, red, green) => blue_step(keyword, red, green, text),
        Expected::West => west_step(Coordinate::read(text)),
        Expected::South(x) => south_step(x, Coordinate::read(text)),
        Expected::East(x, y) => east_step(x, y, Coordinate::read(text)),
        Expected::North(x, y, east) => north_step(x, y, east, Coordinate::read(text)),
        Expected::Only(word) => only_step(word, text),
        Expected::Formats => offer_step(FlagKeyword::Png, Offer::Png.offered(text)),
        Expected::Systems => offer_step(FlagKeyword::Mercator, Offer::Mercator.offered(text)),
        Expected::Smoothing => whole(Smoothing::read(text, token.line).map(Value::Smoothing)),
        Expected::Unused(more) => Some(unused_step(more)),
        // They are kept as texts.
        Expected::Text(_)
        | Expected::Table
        | Expected::Rule
        | Expected::Setting
        | Expected::ConfigKey
        | Expected::FontFile(_) => None,
    }
}

// Reads the rule of a class.
fn rule_step(token: &Token, alloc: Global) -> Result<ValueStep, ParseFault>
    ensures { MatchResult result
        (λ step. rule_step token.now ≡ Ok step)
        (IsErrorOf (rule_step token.now)) }
{
    match ClassRule::read(token, alloc) {
        Ok(rule) => Ok(ValueStep::Whole(Value::Rule(rule))),
        Err(RuleError::NoExpression) => Err(fault_of(ParseKind::BadExpression, token).into()),
        Err(RuleError::NoMemory) => Err(ParseFault::NoMemory),
    }
}

// Whether a name is that of a table's file.
fn is_table_name(name: &str) -> bool
    ensures { result ≡ is_table_name name.now }
{
    name.ends_with(".csv")
}

// Reads the name of a table's file.
fn table_step(token: &Token, alloc: Global) -> Result<ValueStep, ParseFault>
    ensures { MatchResult result
        (λ step. table_step token.now ≡ Ok step)
        (IsErrorOf (table_step token.now)) }
{
    if !is_table_name(token.text) {
        return Err(fault_of(ParseKind::WrongValue, token).into());
    }
    let name = Named::read(alloc, token.text, token.line)?;
    Ok(ValueStep::Whole(Value::Text(TextKeyword::Data, name)))
}

// Reads a token of a value.
fn step_in(expected: &Expected, token: &Token, alloc: Global) -> Result<ValueStep, ParseFault>
    ensures { MatchResult result
        (λ step. step_in expected.now token.now ≡ Ok step)
        (IsErrorOf (step_in expected.now token.now)) }
{
    match expected {
        Expected::Text(keyword) => {
            let text = Named::read(alloc, token.text, token.line)?;
            Ok(ValueStep::Whole(Value::Text(*keyword, text)))
        }
        Expected::ConfigKey => config_step(token, alloc),
        Expected::FontFile(key) => Ok(font_step(key, token, alloc)?),
        Expected::Table => table_step(token, alloc),
        Expected::Rule => rule_step(token, alloc),
        Expected::Setting => setting_step(token, alloc),
        _ => match plain_step(expected, token) {
            Some(step) => Ok(step),
            None => Err(fault_of(ParseKind::WrongValue, token).into()),
        },
    }
}

// Whether a token of this shape may be a value of a keyword. Only a rule may be a Logic or a List.
fn may_take(expected: &Expected, token: &Token) -> bool
    ensures { result ≡ may_take expected.now token.now.shape }
{
    match expected {
        Expected::Rule => true,
        _ => is_value(token),
    }
}

/// Reads a token of a value.
pub fn value_step(
    expected: &Expected,
    token: &Token,
    alloc: Global,
) -> Result<ValueStep, ParseFault>
    ensures { MatchResult result
        (λ step. value_step expected.now token.now ≡ Ok step)
        (IsErrorOf (value_step expected.now token.now)) }
{
    if !may_take(expected, token) {
        return Err(fault_of(ParseKind::WrongValue, token).into());
    }
    step_in(expected, token, alloc)
}

/// The coordinate that the token is.
pub fn coordinate_in(token: &Token) -> Option<Coordinate>
    ensures { result ≡ coordinate_in token.now }
{
    if !is_value(token) {
        return None;
    }
    Coordinate::read(token.text)
}
