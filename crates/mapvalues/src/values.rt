ghost use Rattle.std.specs.Prelude.{◌≡◌, ◌≤◌, [], ◌∷◌, List, ℕ, find, reverse, option_map, IfSome, OnOk};
ghost use Rattle.std.specs.List.{list_any};
ghost use Rattle.mapwords.specs.Table.{least_of, most_of};
ghost use Rattle.mapvalues.specs.Values.{colour_in, count_in, extent_in, flag_in, geometry_in, is_filled, is_radii, is_wanted, items_in, last, position_in, rule_in, scale_in, smoothing_in, text_in, type_in, words_in};

use crate::stack::Stack;
use geom::Micro;
use mapdefs::{Geometry, MAX_ITEMS, Position, Rgb, Text};
use mapwords::{
    Capped, ClassRule, ColourKeyword, CountKeyword, Extent, FlagKeyword, Named, ScaleKeyword,
    Smoothing, SymbolType, TextKeyword, Value,
};
use std::alloc::{AllocError, Global};
use std::marker::Model;

/// The values that a block was given, of which the last of each keyword counts. Contracts see the last one first.
#[derive(Drop)]
pub struct Values {
    given: Stack<Value>,
}

impl Model for Values {
    ghost use Rattle.std.specs.Prelude.{List};
    ghost use Rattle.mapdefs.specs.contracts.expr.Expr as expr;
    ghost use Rattle.std.specs.Coded.{codes};
    ghost use Rattle.mapwords.specs.declared.value.Value.{Value as ValueTree};

    ghost Value = { List ValueTree };

    ghost coded = { Prim.hlevel (codes, expr.the_row.coded) };

    ghost view = { λ v. v.given };
}

// The text that a value is, if it is one of the keyword.
fn text_in<'a>(keyword: TextKeyword, value: &'a Value) -> Option<&'a Named>
    ensures { option_map (λ x. x.now) result ≡ text_in keyword value.now }
{
    match value {
        Value::Text(other, named) if other.number() == keyword.number() => Some(named),
        _ => None,
    }
}

// The count that a value is, if it is one of the keyword.
fn count_in(keyword: CountKeyword, value: &Value) -> Option<u16>
    ensures value { result ≡ count_in keyword value.now }
    ensures bounds { IfSome result (λ n. (least_of keyword ≤ n) × (n ≤ most_of keyword)) }
{
    match value {
        Value::Count(count) => count.of(keyword),
        _ => None,
    }
}

// The flag that a value is, if it is one of the keyword.
fn flag_in(keyword: FlagKeyword, value: &Value) -> Option<bool>
    ensures { result ≡ flag_in keyword value.now }
{
    match value {
        Value::Flag(other, flag) if other.number() == keyword.number() => Some(*flag),
        _ => None,
    }
}

// The scale denominator that a value is, if it is one of the keyword.
fn scale_in(keyword: ScaleKeyword, value: &Value) -> Option<Micro>
    ensures { result ≡ scale_in keyword value.now }
{
    match value {
        Value::Scale(other, scale) if other.number() == keyword.number() => Some(*scale),
        _ => None,
    }
}

// The colour that a value is, which may be none, if it is one of the keyword.
fn colour_in(keyword: ColourKeyword, value: &Value) -> Option<Option<Rgb>>
    ensures { result ≡ colour_in keyword value.now }
{
    match value {
        Value::Colour(other, colour) if other.number() == keyword.number() => Some(*colour),
        _ => None,
    }
}

// Whether a value is the radii of a disc.
fn is_radii(value: &Value) -> bool
    ensures { result ≡ is_radii value.now }
{
    match value {
        Value::Radii => true,
        _ => false,
    }
}

// Whether a value says that a disc is filled.
fn is_filled(value: &Value) -> bool
    ensures { result ≡ is_filled value.now }
{
    match value {
        Value::Filled => true,
        _ => false,
    }
}

// Whether one of some values is the radii of a disc.
fn has_radii(values: &[Value]) -> bool
    ensures { result ≡ list_any is_radii (reverse values.now) }
{
    values.iter().rev().any(|value| is_radii(value))
}

// Whether one of some values says that a disc is filled.
fn has_filled(values: &[Value]) -> bool
    ensures { result ≡ list_any is_filled (reverse values.now) }
{
    values.iter().rev().any(|value| is_filled(value))
}

// The type of a symbol that a value is.
fn type_in(value: &Value) -> Option<SymbolType>
    ensures { result ≡ type_in value.now }
{
    match value {
        Value::SymbolType(symbol_type) => Some(*symbol_type),
        _ => None,
    }
}

// The smoothing that a value is.
fn smoothing_in(value: &Value) -> Option<Smoothing>
    ensures { result ≡ smoothing_in value.now }
{
    match value {
        Value::Smoothing(smoothing) => Some(*smoothing),
        _ => None,
    }
}

// The geometry that a value is.
fn geometry_in(value: &Value) -> Option<Geometry>
    ensures { result ≡ geometry_in value.now }
{
    match value {
        Value::Geometry(geometry) => Some(*geometry),
        _ => None,
    }
}

// The position that a value is.
fn position_in(value: &Value) -> Option<Position>
    ensures { result ≡ position_in value.now }
{
    match value {
        Value::Position(position) => Some(*position),
        _ => None,
    }
}

// The extent that a value is.
fn extent_in<'a>(value: &'a Value) -> Option<&'a Extent>
    ensures { option_map (λ x. x.now) result ≡ extent_in value.now }
{
    match value {
        Value::Extent(extent) => Some(extent),
        _ => None,
    }
}

/// What is looked for among values.
#[derive(Clone, Copy)]
pub enum Wanted {
    Text(TextKeyword),
    Count(CountKeyword),
    Flag(FlagKeyword),
    Scale(ScaleKeyword),
    Colour(ColourKeyword),
    Geometry,
    Position,
    Extent,
    SymbolType,
    Smoothing,
}

impl Wanted {
    // Whether a value is it.
    fn is(self, value: &Value) -> bool
        ensures { result ≡ is_wanted self value.now }
    {
        match self {
            Wanted::Text(keyword) => text_in(keyword, value).is_some(),
            Wanted::Count(keyword) => count_in(keyword, value).is_some(),
            Wanted::Flag(keyword) => flag_in(keyword, value).is_some(),
            Wanted::Scale(keyword) => scale_in(keyword, value).is_some(),
            Wanted::Colour(keyword) => colour_in(keyword, value).is_some(),
            Wanted::Geometry => geometry_in(value).is_some(),
            Wanted::Position => position_in(value).is_some(),
            Wanted::Extent => extent_in(value).is_some(),
            Wanted::SymbolType => type_in(value).is_some(),
            Wanted::Smoothing => smoothing_in(value).is_some(),
        }
    }
}

// The last of some values that is looked for.
fn last_of(values: &[Value], wanted: Wanted) -> Option<&Value>
    ensures { option_map (λ x. x.now) result ≡ find (is_wanted wanted) (reverse values.now) }
{
    values.iter().rev().find(|value| wanted.is(value))
}

impl Values {
    /// No values. It takes no memory.
    pub fn new(alloc: Global) -> Self
        ensures { result ≡ [] }
    {
        Values {
            given: Stack::new(alloc),
        }
    }

    /// Adds a value.
    pub fn push(&mut self, value: Value) -> Result<(), AllocError>
        ensures { OnOk result (self.new ≡ value ∷ self.old) }
    {
        self.given.push(value)
    }

    // The last value that is looked for.
    fn last(&self, wanted: Wanted) -> Option<&Value>
        ensures { option_map (λ x. x.now) result ≡ find (is_wanted wanted) self.now }
    {
        last_of(self.given.as_slice(), wanted)
    }

    /// The last text of a keyword, with its line.
    pub fn text(&self, keyword: TextKeyword) -> Option<&Named>
        ensures { option_map (λ x. x.now) result ≡ last (text_in keyword) self.now }
    {
        match self.last(Wanted::Text(keyword)) {
            Some(value) => text_in(keyword, value),
            None => None,
        }
    }

    /// The last text of a keyword, without its line.
    pub fn plain_text(&self, keyword: TextKeyword) -> Option<&Text>
        ensures { option_map (λ x. x.now) result ≡ last (words_in keyword) self.now }
    {
        match self.text(keyword) {
            Some(named) => Some(&named.text),
            None => None,
        }
    }

    /// The last count of a keyword.
    pub fn count(&self, keyword: CountKeyword) -> Option<u16>
        ensures value { result ≡ last (count_in keyword) self.now }
        ensures bounds { IfSome result (λ n. (least_of keyword ≤ n) × (n ≤ most_of keyword)) }
    {
        match self.last(Wanted::Count(keyword)) {
            Some(value) => count_in(keyword, value),
            None => None,
        }
    }

    /// The last flag of a keyword.
    pub fn flag(&self, keyword: FlagKeyword) -> Option<bool>
        ensures { result ≡ last (flag_in keyword) self.now }
    {
        match self.last(Wanted::Flag(keyword)) {
            Some(value) => flag_in(keyword, value),
            None => None,
        }
    }

    /// The last scale denominator of a keyword.
    pub fn scale(&self, keyword: ScaleKeyword) -> Option<Micro>
        ensures { result ≡ last (scale_in keyword) self.now }
    {
        match self.last(Wanted::Scale(keyword)) {
            Some(value) => scale_in(keyword, value),
            None => None,
        }
    }

    /// The last colour of a keyword, which may be none.
    pub fn colour(&self, keyword: ColourKeyword) -> Option<Option<Rgb>>
        ensures { result ≡ last (colour_in keyword) self.now }
    {
        match self.last(Wanted::Colour(keyword)) {
            Some(value) => colour_in(keyword, value),
            None => None,
        }
    }

    /// The last geometry.
    pub fn geometry(&self) -> Option<Geometry>
        ensures { result ≡ last geometry_in self.now }
    {
        match self.last(Wanted::Geometry) {
            Some(value) => geometry_in(value),
            None => None,
        }
    }

    /// The last position.
    pub fn position(&self) -> Option<Position>
        ensures { result ≡ last position_in self.now }
    {
        match self.last(Wanted::Position) {
            Some(value) => position_in(value),
            None => None,
        }
    }

    /// The last extent.
    pub fn extent(&self) -> Option<&Extent>
        ensures { option_map (λ x. x.now) result ≡ last extent_in self.now }
    {
        match self.last(Wanted::Extent) {
            Some(value) => extent_in(value),
            None => None,
        }
    }

    /// The last type of a symbol.
    pub fn symbol_type(&self) -> Option<SymbolType>
        ensures { result ≡ last type_in self.now }
    {
        match self.last(Wanted::SymbolType) {
            Some(value) => type_in(value),
            None => None,
        }
    }

    /// The last smoothing.
    pub fn smoothing(&self) -> Option<Smoothing>
        ensures { result ≡ last smoothing_in self.now }
    {
        match self.last(Wanted::Smoothing) {
            Some(value) => smoothing_in(value),
            None => None,
        }
    }

    /// Whether they have the radii of a disc.
    pub fn has_radii(&self) -> bool
        ensures { result ≡ list_any is_radii self.now }
    {
        has_radii(self.given.as_slice())
    }

    /// Whether they say that a disc is filled.
    pub fn has_filled(&self) -> bool
        ensures { result ≡ list_any is_filled self.now }
    {
        has_filled(self.given.as_slice())
    }

    /// The last rule.
    pub fn into_rule(self) -> Option<ClassRule>
        ensures { result ≡ last rule_in self }
    {
        let mut given = self.given;
        while let Some(value) = given.pop() {
            if let Value::Rule(rule) = value {
                return Some(rule);
            }
        }
        None
    }

    /// The names of items that were given last.
    pub fn into_items(self) -> Option<Capped<Text, MAX_ITEMS>>
        ensures { result ≡ last items_in self }
    {
        let mut given = self.given;
        while let Some(value) = given.pop() {
            if let Value::Items(items) = value {
                return Some(items);
            }
        }
        None
    }
}
