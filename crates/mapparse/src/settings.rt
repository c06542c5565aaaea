ghost use Rattle.std.specs.Prelude.{◌≡◌, ◌≤◌, option_map, unwrap_or, IfOk};
ghost use Rattle.mapdefs.specs.declared.limits.TheConstants.{MAX_TOLERANCE};
ghost use Rattle.mapwords.specs.Table.{least_of, most_of};
ghost use Rattle.mapwords.specs.declared.table.TextKeyword.TheVariants.{OwsOnlineResource, WmsOnlineResource};
ghost use Rattle.mapvalues.specs.Values.{count_in, last, words_in};
ghost use Rattle.mapparse.specs.Mapping.{either_text, empty_layer, service_title, tolerance_of};

use crate::table::{LATITUDES, LONGITUDES};
use mapdefs::{Duplicate, Geometry, Items, LayerFields, SharedItems, Text};
use mapvalues::Values;
use mapwords::{CountKeyword, ScaleKeyword, TextKeyword};
use std::alloc::{AllocError, Global};

/// The last count of a keyword, or its default.
pub fn count_or(values: &Values, keyword: CountKeyword, default: u16) -> u16
    requires least { least_of keyword ≤ default }
    requires most { default ≤ most_of keyword }
    ensures value { result ≡ unwrap_or (last (count_in keyword) values.now) default }
    ensures least { least_of keyword ≤ result }
    ensures most { result ≤ most_of keyword }
{
    match values.count(keyword) {
        Some(count) => count,
        None => default,
    }
}

// How far from the queried pixel a feature counts by default, in pixels.
fn tolerance_of(geometry: Geometry) -> u16
    ensures value { result ≡ tolerance_of geometry }
    ensures limit { result ≤ MAX_TOLERANCE }
{
    match geometry {
        Geometry::Polygon => 0,
        Geometry::Point | Geometry::Line => 3,
    }
}

/// A copy of a text, or its default.
pub fn text_or(text: Option<&Text>, default: &str, alloc: Global) -> Result<Text, AllocError>
    ensures { IfOk result (λ made. made ≡ unwrap_or (option_map (λ x. x.now) text.entry) default.now) }
{
    match text {
        Some(text) => text.duplicate(alloc),
        None => Text::from_str(alloc, default),
    }
}

// A copy of the last text of a keyword, if there is one.
fn text_of(values: &Values, keyword: TextKeyword, alloc: Global) -> Result<Option<Text>, AllocError>
    ensures { IfOk result (λ made. made ≡ last (words_in keyword) values.now) }
{
    match values.plain_text(keyword) {
        Some(text) => Ok(Some(text.duplicate(alloc)?)),
        None => Ok(None),
    }
}

// The last text of a keyword, else that of another one.
fn either_text(values: &Values, first: TextKeyword, second: TextKeyword) -> Option<&Text>
    ensures { option_map (λ x. x.now) result ≡ either_text first second values.now }
{
    match values.plain_text(first) {
        Some(text) => Some(text),
        None => values.plain_text(second),
    }
}

/// The title of the service, if it has one.
pub fn service_title(values: &Values) -> Option<&Text>
    ensures { option_map (λ x. x.now) result ≡ service_title values.now }
{
    match either_text(values, TextKeyword::WmsTitle, TextKeyword::OwsTitle) {
        Some(title) => Some(title),
        None => values.plain_text(TextKeyword::Name),
    }
}

/// The address of the service, if it has one.
pub fn service_url(values: &Values) -> Option<&Text>
    ensures { option_map (λ x. x.now) result ≡ either_text WmsOnlineResource OwsOnlineResource values.now }
{
    either_text(
        values,
        TextKeyword::WmsOnlineResource,
        TextKeyword::OwsOnlineResource,
    )
}

/// A layer of a name and a geometry with what its keywords give it, and defaults. It has neither items nor classes
/// nor features.
pub fn empty_layer(
    values: &Values,
    name: Text,
    geometry: Geometry,
    alloc: Global,
) -> Result<LayerFields, AllocError>
    ensures value { IfOk result (λ made. made ≡ empty_layer name geometry values.now) }
    ensures limit { IfOk result (λ made. made.tolerance ≤ MAX_TOLERANCE) }
{
    let title = either_text(values, TextKeyword::WmsTitle, TextKeyword::OwsTitle);
    Ok(LayerFields {
        title: text_or(title, name.as_str(), alloc)?,
        name,
        kind: geometry,
        on: true,
        classitem: text_of(values, TextKeyword::ClassItem, alloc)?,
        labelitem: text_of(values, TextKeyword::LabelItem, alloc)?,
        items: Items::new(alloc),
        csv_x: text_or(values.plain_text(TextKeyword::CsvX), LONGITUDES, alloc)?,
        csv_y: text_or(values.plain_text(TextKeyword::CsvY), LATITUDES, alloc)?,
        queryable: values.text(TextKeyword::Template).is_some(),
        tolerance: count_or(values, CountKeyword::Tolerance, tolerance_of(geometry)) as u8,
        min: values.scale(ScaleKeyword::Min),
        max: values.scale(ScaleKeyword::Max),
        classes: SharedItems::empty(),
        features: SharedItems::empty(),
    })
}
