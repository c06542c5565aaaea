ghost use Rattle.std.specs.Prelude.{◌≡◌, ◌<◌, ◌≤◌, None, [], ◌∷◌, length, sum_by, All, IfOk, IfSome};
ghost use Rattle.mapdefs.specs.MapLimits.{ClassNamesSymbolsOf, LayerNamesSymbolsOf, NamesSymbolOf};
ghost use Rattle.mapdefs.specs.declared.limits.TheConstants.{MAX_LAYERS};

use compose::picture;
use geom::{Micro, NUMBER_LIMIT, PictureSide, World, WorldBox};
use mapdefs::{
    AllFeatures, Class, ClassFields, Feature, FeatureFields, Geometry, Items, Layer, LayerFields,
    MAX_VERTICES, Map, Part, PartList, Picture, Rgb, Rule, SharedItems, Style, StyleFields, Symbol,
    SymbolShape, Text, Values,
};
use scaledenom::Scale;
use std::alloc::{AllocError, Global};
use test_maps::{map_fields, one_feature, place};
use test_tables::numbers;
use viewport::{Heights, View};

/// The colours by their letters: `#` is brown, `o` dark and `.` white. Any other letter is none.
pub(crate) fn colour_of(letter: u8) -> Option<Rgb> {
    let (red, green, blue) = match letter {
        b'#' => (100, 60, 20),
        b'o' => (10, 20, 30),
        b'.' => (255, 255, 255),
        _ => return None,
    };
    Some(Rgb { red, green, blue })
}

// The letter of a colour, `?` of any other and `_` where there is none.
fn letter(colour: Option<Rgb>) -> char {
    let Some(colour) = colour else {
        return '_';
    };
    match (colour.red, colour.green, colour.blue) {
        (100, 60, 20) => '#',
        (10, 20, 30) => 'o',
        (255, 255, 255) => '.',
        _ => '?',
    }
}

// The digit of a letter, or 1 for any other one.
fn digit(letter: u8) -> u8
    ensures some { 1 ≤ result }
    ensures most { result ≤ 9 }
{
    if (b'1'..=b'9').contains(&letter) {
        letter - b'0'
    } else {
        1
    }
}

// The index of a symbol, `0` to `2`.
fn symbol_of(letter: u8) -> Option<usize>
    ensures { IfSome result (λ index. index < 3) }
{
    match letter {
        b'0' => Some(0),
        b'1' => Some(1),
        b'2' => Some(2),
        _ => None,
    }
}

// A style. Its letters are the colour and the colour of the outline, the digits of width and size, and the
// index of a symbol. What is left out is `-`: no colour, no symbol, and 1.
fn style(letters: &str) -> Style
    ensures { NamesSymbolOf 3 result }
{
    let letter = |at: usize| letters.as_bytes().get(at).copied().unwrap_or(b'-');
    Style::new(StyleFields {
        colour: colour_of(letter(0)),
        outline: colour_of(letter(1)),
        width: digit(letter(2)),
        size: u16::from(digit(letter(3))),
        symbol: symbol_of(letter(4)),
    })
}

// The least scale denominator at which an object is visible, and the first that is too great.
type Bounds = (Option<Micro>, Option<Micro>);

// A bound, `-` for none.
fn bound(text: &str) -> Option<Option<Micro>> {
    match text {
        "-" => Some(None),
        number => Some(Some(Micro::read(number.as_bytes(), NUMBER_LIMIT).ok()?)),
    }
}

// Bounds with `..` between them.
fn bounds(text: &str) -> Option<Bounds> {
    let (min, max) = text.split_once("..")?;
    Some((bound(min)?, bound(max)?))
}

// The two styles whose letters `/` parts.
fn styles_of(alloc: Global, letters: &str) -> Result<Items<Style>, AllocError>
    ensures symbols { IfOk result (All (NamesSymbolOf 3)) }
    ensures count { IfOk result (λ styles. length styles ≡ 2) }
{
    let (first, second) = letters.split_once('/').ok_or(AllocError)?;
    let mut styles = Items::new(alloc);
    styles.push(style(first))?;
    styles.push(style(second))?;
    Ok(styles)
}

// One class of these two styles.
fn classes_of(
    alloc: Global,
    letters: &str,
    bounds: Bounds,
) -> Result<SharedItems<Class>, AllocError>
    ensures symbols { IfOk result (All (ClassNamesSymbolsOf 3)) }
    ensures count { IfOk result (λ classes. length classes ≡ 1) }
{
    let (min, max) = bounds;
    let styles = styles_of(alloc, letters)?;
    let mut classes = Items::new(alloc);
    classes.push(Class::new(ClassFields {
        rule: Rule::Always,
        min,
        max,
        styles,
        label: None,
    }))?;
    SharedItems::new(alloc, classes)
}

// A vertex of two counts of tenths of a degree, as `15,-5`.
fn vertex(text: &str) -> Option<World> {
    let [x, y] = numbers::<2>(text, ',')?;
    Some(place([
        x.clamp(-10_000, 10_000) * 100_000,
        y.clamp(-10_000, 10_000) * 100_000,
    ]))
}

// A ring of at most a hundred vertices.
fn ring(alloc: Global, text: &str) -> Result<Part, AllocError>
    ensures { IfOk result (λ ring. length ring ≤ 100) }
{
    let vertices: Vec<&str> = text.split_whitespace().collect(alloc)?;
    if vertices.len() > 100 {
        return Err(AllocError);
    }
    let mut ring = Vec::new(alloc);
    for text in vertices.as_slice() {
        ring.push(vertex(text).ok_or(AllocError)?)?;
    }
    Part::of(alloc, ring)
}

/// A feature of these rings.
fn feature_of(parts: PartList) -> Feature
    requires { sum_by length parts ≤ MAX_VERTICES }
    ensures { result.values ≡ [] }
{
    Feature::new(FeatureFields {
        parts,
        text: None,
        values: Values::none(),
    })
}

// A feature of at most four rings, which `/` parts. `-` is none.
fn feature(alloc: Global, text: &str) -> Result<Feature, AllocError>
    ensures { IfOk result (λ feature. feature.values ≡ []) }
{
    let mut rings = Vec::new(alloc);
    if text != "-" {
        rings = text.split('/').collect(alloc)?;
    }
    if rings.len() > 4 {
        return Err(AllocError);
    }
    let mut parts = Items::new(alloc);
    for text in rings.as_slice() {
        parts.push(ring(alloc, text)?)?;
    }
    Ok(feature_of(PartList::of(alloc, parts)?))
}

fn kind_of(code: &str) -> Option<Geometry> {
    match code {
        "polygon" => Some(Geometry::Polygon),
        "line" => Some(Geometry::Line),
        "point" => Some(Geometry::Point),
        _ => None,
    }
}

// The bounds on the scale of the class and of the layer with a comma between them, or `none`.
fn bounds_of(bounded: &str) -> Option<(Bounds, Bounds)> {
    let (of_class, of_layer) = bounded.split_once(',').unwrap_or(("-..-", "-..-"));
    Some((bounds(of_class)?, bounds(of_layer)?))
}

// The kind of a layer, the letters of its class's styles, and the bounds of both.
fn codes_of(codes: &str) -> Option<(Geometry, &str, Bounds, Bounds)> {
    let (kind, codes) = codes.split_once(' ')?;
    let (letters, bounded) = codes.split_once(' ')?;
    let (of_class, of_layer) = bounds_of(bounded)?;
    Some((kind_of(kind)?, letters, of_class, of_layer))
}

// A layer of that kind, with these bounds on the scale.
fn layer_of(
    alloc: Global,
    kind: Geometry,
    bounds: Bounds,
    classes: SharedItems<Class>,
    features: SharedItems<Feature>,
) -> Layer
    requires feature { length features ≡ 1 }
    requires values { All (λ f. f.values ≡ []) features }
    requires symbols { All (ClassNamesSymbolsOf 3) classes }
    requires class { length classes ≡ 1 }
    ensures { LayerNamesSymbolsOf 3 result }
{
    let (min, max) = bounds;
    Layer::new(LayerFields {
        name: Text::of(String::new(alloc)),
        title: Text::of(String::new(alloc)),
        kind,
        // what is chosen is painted, switched on or not
        on: false,
        classitem: None,
        labelitem: None,
        items: Items::new(alloc),
        csv_x: Text::of(String::new(alloc)),
        csv_y: Text::of(String::new(alloc)),
        queryable: false,
        tolerance: 0,
        min,
        max,
        classes,
        features,
    })
}

/// A layer of this feature with one class. Its kind, the letters of the class's styles, and the bounds on
/// the scale of the class and of the layer with a comma between them, or `none`. Malformed ones end a test as
/// those for which memory is refused.
fn layer(alloc: Global, codes: &str, feature: Feature) -> Result<Layer, AllocError>
    requires { feature.values ≡ [] }
    ensures { IfOk result (LayerNamesSymbolsOf 3) }
{
    let features = one_feature(alloc, feature)?;
    let Some((kind, letters, of_class, of_layer)) = codes_of(codes) else {
        return Err(AllocError);
    };
    let classes = classes_of(alloc, letters, of_class)?;
    Ok(layer_of(alloc, kind, of_layer, classes, features))
}

// A symbol that draws this.
fn symbol(alloc: Global, shape: SymbolShape) -> Symbol {
    Symbol {
        name: Text::of(String::new(alloc)),
        shape,
    }
}

// The symbol of a pixmap's file.
fn pixmap(alloc: Global, file: &[u8]) -> Result<Symbol, AllocError> {
    match symbols::read(alloc, file) {
        Ok(pixmap) => Ok(symbol(alloc, SymbolShape::Pixmap(pixmap))),
        Err(_) => Err(AllocError),
    }
}

// Three symbols: `#` and `o` above nothing and `#`; three pixels one below another, `o`, nothing and `#`; and a disc.
fn three_symbols(alloc: Global) -> Result<SharedItems<Symbol>, AllocError>
    ensures { IfOk result (λ symbols. length symbols ≡ 3) }
{
    let square = b"P6 2 2 255\n\x64\x3c\x14\x0a\x14\x1e\xff\x00\xff\x64\x3c\x14";
    let column = b"P6 1 3 255\n\x0a\x14\x1e\xff\x00\xff\x64\x3c\x14";
    let square = pixmap(alloc, square)?;
    let column = pixmap(alloc, column)?;
    let disc = symbol(alloc, SymbolShape::Disc);
    SharedItems::new(alloc, Items::of(vec![in alloc; square, column, disc]?))
}

/// A map of four degrees by four, with these layers and three symbols.
fn map_of(alloc: Global, layers: Items<Layer>) -> Result<Map, AllocError>
    requires count { length layers ≤ MAX_LAYERS }
    requires symbols { All (LayerNamesSymbolsOf 3) layers }
    ensures layers { IfOk result (λ map. map.layers ≡ layers) }
    ensures fonts { IfOk result (λ map. map.fonts ≡ []) }
{
    let symbols = three_symbols(alloc)?;
    let mut fields = map_fields(alloc, layers);
    fields.symbols = symbols;
    Ok(Map::new(fields))
}

// The layer with these codes and rings.
fn layer_of_rings(alloc: Global, codes: &str, rings: &str) -> Result<Layer, AllocError>
    ensures { IfOk result (LayerNamesSymbolsOf 3) }
{
    let feature = feature(alloc, rings)?;
    layer(alloc, codes, feature)
}

/// A map of two layers. The first has these codes and rings, the second paints the inner square dark.
pub(crate) fn map_of_two(alloc: Global, codes: &str, rings: &str) -> Result<Map, AllocError>
    ensures layers { IfOk result (λ map. length map.layers ≡ 2) }
    ensures fonts { IfOk result (λ map. map.fonts ≡ []) }
{
    let mut layers = Vec::new(alloc);
    layers.push(layer_of_rings(alloc, codes, rings)?)?;
    layers.push(layer_of_rings(alloc, "polygon o/- none", "10,10 30,10 30,30 10,30")?)?;
    map_of(alloc, Items::of(layers))
}

// The indices of the layers that are chosen.
fn chosen_of(digits: &str) -> Option<&'static [usize]>
    ensures { IfSome result (λ chosen. All (λ index. index < 2) chosen.now) }
{
    match digits {
        "none" => Some(&[]),
        "0" => Some(&[0]),
        "1" => Some(&[1]),
        "0 1" => Some(&[0, 1]),
        "1 0" => Some(&[1, 0]),
        "1 0 1" => Some(&[1, 0, 1]),
        "0 1 0" => Some(&[0, 1, 0]),
        "0 0 1" => Some(&[0, 0, 1]),
        _ => None,
    }
}

/// The rows of a picture in letters, with blanks between them.
pub(crate) fn letters_of(alloc: Global, picture: &Picture) -> Result<String, AllocError> {
    let mut text = String::new(alloc);
    for row in 0..picture.get().height.pixels() {
        if row > 0 {
            text.push(' ')?;
        }
        for column in 0..picture.get().width.pixels() {
            text.push(letter(picture.at(column, row)))?;
        }
    }
    Ok(text)
}

// A background, of which `_` is nothing, and the number of degrees and pixels on a side, from one letter or two.
fn ground_of(letters: &str) -> Option<(Option<Rgb>, u8)> {
    match *letters.as_bytes() {
        [b'_'] => Some((None, 4)),
        [letter] => Some((Some(colour_of(letter)?), 4)),
        [letter, _] => Some((Some(colour_of(letter)?), 8)),
        _ => None,
    }
}

// The picture of four degrees by four in four pixels by four, or of eight by eight in eight by eight where
// the background is written twice: the pixel centres are at half degrees. The scale is that
// of 0.28 degrees in a pixel.
fn drawn(
    alloc: Global,
    map: &Map,
    chosen: &[usize],
    background: Option<Rgb>,
    degrees: u8,
) -> Result<String, AllocError>
    requires { All (λ index. index < length map.now.layers) chosen.now }
{
    let degrees = degrees.clamp(1, 8);
    let low = Micro::new(0);
    let high = Micro::new(i64::from(degrees) * 1_000_000);
    let side = PictureSide::new(u16::from(degrees)).unwrap();
    let view = View::new(
        Heights::Latitudes,
        WorldBox::new(low, low, high, high),
        side,
        side,
    );
    let scale = Scale::of(280_000, PictureSide::new(1).unwrap());
    let near = AllFeatures::of(alloc, map);
    let picture = picture(alloc, map, &near, view, scale, chosen, background)?;
    letters_of(alloc, &picture)
}

// The fields of a row after the picture: the background, the layers that are chosen, codes and rings.
fn fields_of(fields: &str) -> Option<(&str, &str, &str, &str)> {
    let (background, fields) = fields.split_once(';')?;
    let (chosen, fields) = fields.split_once(';')?;
    let (codes, rings) = fields.split_once(';')?;
    Some((background, chosen, codes, rings))
}

/// The picture of the fields of a row after the picture. A row is the picture in letters, the letter of the
/// background, the layers that are chosen, and the codes and the rings of the first layer, in tenths of a
/// degree.
pub(crate) fn drawn_row(alloc: Global, fields: &str) -> Result<String, AllocError> {
    let Some((background, chosen, codes, rings)) = fields_of(fields) else {
        return format!(in alloc; "malformed");
    };
    let Some((background, degrees)) = ground_of(background) else {
        return format!(in alloc; "malformed");
    };
    let Some(chosen) = chosen_of(chosen) else {
        return format!(in alloc; "malformed");
    };
    let map = map_of_two(alloc, codes, rings)?;
    drawn(alloc, &map, chosen, background, degrees)
}
