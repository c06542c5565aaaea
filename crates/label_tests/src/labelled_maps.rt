ghost use Rattle.std.specs.Prelude.{◌≡◌, ◌≤◌, ◌<◌, length, All, IfOk, IfSome};
ghost use Rattle.mapdefs.specs.LayerLimits.{HasValues};
ghost use Rattle.mapdefs.specs.declared.limits.TheConstants.{MAX_LAYERS};
ghost use Rattle.mapdefs.specs.MapLimits.{ClassNamesSymbolsOf, LayerNamesSymbolsOf, NamesSymbolOf};

use crate::entries::{label_of, plain_label};
use crate::fonts::fonts_of;
use crate::worked_labels::set;
use geom::World;
use mapdefs::{
    Class, ClassFields, Feature, FeatureFields, Font, Geometry, Items, Label, Layer, LayerFields,
    Map, Part, PartList, Rgb, Rule, Shared, SharedItems, Style, StyleFields, Text, Texts, Values,
};
use std::alloc::{AllocError, Global};
use test_maps::{layer_fields, map_fields, place};
use test_tables::numbers;

/// The colour of a letter: `#` is brown and `o` dark. Any other letter is none.
pub(crate) fn colour_of(letter: &str) -> Option<Rgb> {
    let (red, green, blue) = match letter {
        "#" => (100, 60, 20),
        "o" => (10, 20, 30),
        _ => return None,
    };
    Some(Rgb { red, green, blue })
}

// A square of five pixels in the colour of a letter, if it has one.
fn styles_of(alloc: Global, letter: &str) -> Result<Items<Style>, AllocError>
    ensures symbols { IfOk result (All (NamesSymbolOf 0)) }
    ensures count { IfOk result (λ styles. length styles ≤ 1) }
{
    let mut styles = Items::new(alloc);
    let Some(colour) = colour_of(letter) else {
        return Ok(styles);
    };
    styles.push(Style::new(StyleFields {
        colour: Some(colour),
        outline: None,
        width: 1,
        size: 5,
        symbol: None,
    }))?;
    Ok(styles)
}

// The label with these codes.
fn label(codes: &str) -> Label {
    let mut fields = plain_label();
    for code in codes.split(' ') {
        set(&mut fields, code);
    }
    label_of(fields)
}

// One class with this style and the label with these codes.
fn classes_of(alloc: Global, letter: &str, codes: &str) -> Result<SharedItems<Class>, AllocError>
    ensures symbols { IfOk result (All (ClassNamesSymbolsOf 0)) }
    ensures count { IfOk result (λ classes. length classes ≡ 1) }
{
    let styles = styles_of(alloc, letter)?;
    let mut classes = Items::new(alloc);
    classes.push(Class::new(ClassFields {
        rule: Rule::Always,
        min: None,
        max: None,
        styles,
        label: Some(label(codes)),
    }))?;
    SharedItems::new(alloc, classes)
}

// A text. `-` and `empty` are texts without characters, and `long` is one of 255 characters of two bytes and two more.
fn text_of(alloc: Global, code: &str) -> Result<Text, AllocError> {
    let mut text = String::new(alloc);
    if code == "long" {
        for _ in 0..255 {
            text.push('é')?;
        }
        text.push_str("AA")?;
    } else if code != "-" && code != "empty" {
        text.push_str(code)?;
    }
    Ok(Text::of(text))
}

/// What the counts of vertices count.
#[derive(Clone, Copy)]
pub(crate) enum Unit {
    /// Tenths of a degree.
    Tenths,
    /// Millionths of a degree.
    Millionths,
}

// A vertex of two counts, as `15,-5`.
fn vertex(text: &str, unit: Unit) -> Option<World> {
    let [x, y] = numbers::<2>(text, ',')?;
    match unit {
        Unit::Tenths => Some(place([
            x.clamp(-10_000, 10_000) * 100_000,
            y.clamp(-10_000, 10_000) * 100_000,
        ])),
        Unit::Millionths => Some(place([x, y])),
    }
}

// A part of at most eight vertices.
fn part_of(alloc: Global, text: &str, unit: Unit) -> Result<Part, AllocError>
    ensures { IfOk result (λ part. length part ≤ 8) }
{
    let vertices: Vec<&str> = text.split_whitespace().collect(alloc)?;
    if vertices.len() > 8 {
        return Err(AllocError);
    }
    let mut part = Vec::new(alloc);
    for text in vertices.as_slice() {
        part.push(vertex(text, unit).ok_or(AllocError)?)?;
    }
    Part::of(alloc, part)
}

// A feature of a part, with its own text, if it has one, and the value of the layer's item.
fn feature_of(
    alloc: Global,
    part: Part,
    text: Option<Shared<Text>>,
    value: Text,
) -> Result<Feature, AllocError>
    requires { length part ≤ 8 }
    ensures { IfOk result (HasValues 1) }
{
    let mut values = Texts::new(alloc);
    values.push(value.as_str())?;
    Ok(Feature::new(FeatureFields {
        parts: PartList::one(part),
        text,
        values: Values::all_of(alloc, values)?,
    }))
}

// A feature of a row: its own text, `-` for none, the value of the layer's item, and its vertices.
fn feature(alloc: Global, row: &str, unit: Unit) -> Result<Feature, AllocError>
    ensures { IfOk result (HasValues 1) }
{
    let (code, row) = row.split_once(' ').ok_or(AllocError)?;
    let (value, vertices) = row.split_once(' ').ok_or(AllocError)?;
    let part = part_of(alloc, vertices, unit)?;
    let text = text_of(alloc, code)?;
    let value = text_of(alloc, value)?;
    if code == "-" {
        feature_of(alloc, part, None, value)
    } else {
        feature_of(alloc, part, Some(Shared::new(alloc, text)?), value)
    }
}

// The two features of a list, or the only one.
fn features_of(alloc: Global, list: &str, unit: Unit) -> Result<SharedItems<Feature>, AllocError>
    ensures values { IfOk result (All (HasValues 1)) }
    ensures count { IfOk result (λ features. length features ≤ 2) }
{
    let mut features = Items::new(alloc);
    match list.split_once(';') {
        Some((first, second)) => {
            features.push(feature(alloc, first, unit)?)?;
            features.push(feature(alloc, second, unit)?)?;
        }
        None => features.push(feature(alloc, list, unit)?)?,
    }
    SharedItems::new(alloc, features)
}

// The only item of a layer.
fn one_item(alloc: Global) -> Result<Items<Text>, AllocError>
    ensures { IfOk result (λ items. length items ≡ 1) }
{
    let mut items = Items::new(alloc);
    items.push(Text::from_str(alloc, "n")?)?;
    Ok(items)
}

fn kind_of(letter: &str) -> Geometry {
    match letter {
        "g" => Geometry::Polygon,
        "l" => Geometry::Line,
        _ => Geometry::Point,
    }
}

// A layer: `p`, `l` or `g` for its kind, the letter of its style, the codes of its label, and its features.
fn layer(alloc: Global, row: &str, unit: Unit) -> Result<Layer, AllocError>
    ensures { IfOk result (LayerNamesSymbolsOf 0) }
{
    let (codes, list) = row.split_once(';').ok_or(AllocError)?;
    let (kind, codes) = codes.split_once(' ').ok_or(AllocError)?;
    let (letter, codes) = codes.split_once(' ').ok_or(AllocError)?;
    let classes = classes_of(alloc, letter, codes)?;
    let features = features_of(alloc, list, unit)?;
    let items = one_item(alloc)?;
    let labelitem = Some(Text::from_str(alloc, "n")?);
    let fields = layer_fields(alloc, Text::of(String::new(alloc)));
    Ok(Layer::new(LayerFields {
        kind: kind_of(kind),
        labelitem,
        items,
        classes,
        features,
        ..fields
    }))
}

// The fonts of these names, or none.
fn shared_fonts(alloc: Global, names: Option<&str>) -> Result<SharedItems<Font>, AllocError> {
    match names {
        Some(names) => SharedItems::new(alloc, fonts_of(alloc, names)?),
        None => Ok(SharedItems::empty()),
    }
}

// A map of these layers with those fonts.
fn map_with(alloc: Global, layers: Items<Layer>, fonts: SharedItems<Font>) -> Map
    requires count { length layers ≤ MAX_LAYERS }
    requires symbols { All (LayerNamesSymbolsOf 0) layers }
    ensures { result.layers ≡ layers }
{
    let mut fields = map_fields(alloc, layers);
    fields.fonts = fonts;
    Map::new(fields)
}

// The two layers that `|` parts.
fn layers_of(alloc: Global, rows: &str, unit: Unit) -> Result<Items<Layer>, AllocError>
    ensures symbols { IfOk result (All (LayerNamesSymbolsOf 0)) }
    ensures count { IfOk result (λ layers. length layers ≡ 2) }
{
    let (first, second) = rows.split_once('|').ok_or(AllocError)?;
    let mut layers = Items::new(alloc);
    layers.push(layer(alloc, first, unit)?)?;
    layers.push(layer(alloc, second, unit)?)?;
    Ok(layers)
}

/// A map of two layers, with the fonts of these names or without any.
pub(crate) fn map_of_layers(
    alloc: Global,
    rows: &str,
    unit: Unit,
    fonts: Option<&str>,
) -> Result<Map, AllocError>
    ensures { IfOk result (λ map. length map.layers ≡ 2) }
{
    let layers = layers_of(alloc, rows, unit)?;
    let fonts = shared_fonts(alloc, fonts)?;
    Ok(map_with(alloc, layers, fonts))
}
