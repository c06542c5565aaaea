ghost use Rattle.std.specs.Prelude.{◌≡◌, ◌≤◌, [], length, All, IfOk};
ghost use Rattle.mapdefs.specs.MapLimits.{ClassNamesSymbolsOf, LayerNamesSymbolsOf};
ghost use Rattle.mapdefs.specs.declared.limits.TheConstants.{MAX_LAYERS};

use geom::{Coordinate, Micro, NUMBER_LIMIT, World};
use mapdefs::{
    Class, ClassFields, Feature, FeatureFields, Items, Layer, Map, Part, PartList, Rgb, Rule,
    SharedItems, Style, StyleFields, Text, Values,
};
use mapmachine::Machine;
use std::alloc::{AllocError, Global};
use test_maps::{layer_fields, map_fields, one_feature};
use test_tables::{TableFault, check_rows};

// A class that paints in the colour 10 20 30, whatever the scale.
fn class(alloc: Global) -> Result<Class, AllocError>
    ensures { IfOk result (ClassNamesSymbolsOf 0) }
{
    let (red, green, blue) = (10, 20, 30);
    let style = Style::new(StyleFields {
        colour: Some(Rgb { red, green, blue }),
        outline: None,
        width: 1,
        size: 1,
        symbol: None,
    });
    let styles = Items::of(vec![in alloc; style]?);
    Ok(Class::new(ClassFields {
        rule: Rule::Always,
        min: None,
        max: None,
        styles,
        label: None,
    }))
}

// The point of that many degrees east and north, of which there are a few.
fn place(x: i8, y: i8) -> World {
    let east = Coordinate::new(Micro::new(i64::from(x) * 1_000_000));
    let north = Coordinate::new(Micro::new(i64::from(y) * 1_000_000));
    World::new(east, north)
}

// A square of two degrees around the point of longitude and latitude 0.
fn square(alloc: Global) -> Result<Feature, AllocError>
    ensures { IfOk result (λ feature. feature.values ≡ []) }
{
    let mut ring = Vec::new(alloc);
    ring.push(place(-1, -1))?;
    ring.push(place(1, -1))?;
    ring.push(place(1, 1))?;
    ring.push(place(-1, 1))?;
    let parts = PartList::one(Part::of(alloc, ring)?);
    Ok(Feature::new(FeatureFields {
        parts,
        text: None,
        values: Values::none(),
    }))
}

// A layer `a` of the square, with these bounds on the scale denominator.
fn layer(alloc: Global, min: Option<Micro>, max: Option<Micro>) -> Result<Layer, AllocError>
    ensures { IfOk result (LayerNamesSymbolsOf 0) }
{
    let name = Text::from_str(alloc, "a")?;
    let mut classes = Items::new(alloc);
    classes.push(class(alloc)?)?;
    let classes = SharedItems::new(alloc, classes)?;
    let features = one_feature(alloc, square(alloc)?)?;
    let mut fields = layer_fields(alloc, name);
    fields.min = min;
    fields.max = max;
    fields.classes = classes;
    fields.features = features;
    Ok(Layer::new(fields))
}

/// A map with these layers.
pub fn map_of(alloc: Global, layers: Items<Layer>) -> Map
    requires count { length layers ≤ MAX_LAYERS }
    requires symbols { All (LayerNamesSymbolsOf 0) layers }
{
    Map::new(map_fields(alloc, layers))
}

// The machine of a map with that layer alone.
fn machine(alloc: Global, min: Option<Micro>, max: Option<Micro>) -> Result<Machine, AllocError> {
    let mut layers = Items::new(alloc);
    layers.push(layer(alloc, min, max)?)?;
    Machine::open(alloc, map_of(alloc, layers))
}

// A bound, `-` for none.
fn bound(text: &str) -> Option<Option<Micro>> {
    match text {
        "-" => Some(None),
        number => Some(Some(Micro::read(number.as_bytes(), NUMBER_LIMIT).ok()?)),
    }
}

// The parts of a row: the first bound, the second, and the rest of the query.
fn parts(row: &str) -> Option<(Option<Micro>, Option<Micro>, &str)> {
    let (min, rest) = row.split_once(' ')?;
    let (max, query) = rest.split_once(' ')?;
    Some((bound(min)?, bound(max)?, query))
}

// A picture of 0.28 degrees in one pixel is at the scale denominator 111,319,491, and so is one of half
// as many in half as many, whatever its height. The colour of the first pixel's red, which is that of the
// layer, 10, or of the background, then the first bound, the second, and the rest of the query.
const PICTURES: &str = "\
10 111319491 - BBOX=0,0,0.28,0.28&WIDTH=1&HEIGHT=1
255 - 111319491 BBOX=0,0,0.28,0.28&WIDTH=1&HEIGHT=1
255 111319491.000001 - BBOX=0,0,0.28,0.28&WIDTH=1&HEIGHT=1
10 - 111319491.000001 BBOX=0,0,0.28,0.28&WIDTH=1&HEIGHT=1
10 111319491 111319491.000001 BBOX=0.1,0.2,0.66,0.3&WIDTH=2&HEIGHT=3
10 222638982 222638982.000001 BBOX=0.1,0.2,0.66,0.3&WIDTH=1&HEIGHT=2";

// The first pixel's red in the picture that answers a query.
fn red_of(machine: &Machine, query: &[u8]) -> Result<Option<u8>, AllocError> {
    let answer = machine.reply(query)?;
    // the header has 11 bytes
    Ok(answer.body.as_slice().get(11).copied())
}

// The same on the map of the layer with these bounds, with the rest of the query.
fn red_at(
    alloc: Global,
    min: Option<Micro>,
    max: Option<Micro>,
    query: &str,
) -> Result<Option<u8>, AllocError> {
    let query = format!(in alloc;
        "VERSION=1.3.0&REQUEST=GetMap&LAYERS=a&STYLES=&CRS=CRS:84&{query}&FORMAT=image/x-portable-pixmap"
    )?;
    let machine = machine(alloc, min, max)?;
    red_of(&machine, query.as_str().as_bytes())
}

// The text of a row: the first pixel's red.
fn result_of_row(alloc: Global, row: &str) -> Result<String, AllocError> {
    let Some((min, max, query)) = parts(row) else {
        return String::from_str(alloc, "malformed");
    };
    match red_at(alloc, min, max, query)? {
        Some(red) => format!(in alloc; "{red}"),
        None => String::from_str(alloc, "no pixel"),
    }
}

#[test]
fn layers_are_seen_at_worked_scales(rt: HostRuntime) -> Result<(), TableFault> {
    check_rows(rt.alloc(), PICTURES, ' ', 6, result_of_row)
}
