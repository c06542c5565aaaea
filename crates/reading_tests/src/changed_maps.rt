ghost use Rattle.std.specs.Prelude.{◌≡◌, ◌∷◌, ◌<◌, ◌≤◌, [], length, All, IfOk, OnOk};
ghost use Rattle.mapdefs.specs.LayerLimits.{HasValues};

use mapdefs::{
    Duplicate, Feature, FeatureFields, Items, Layer, Map, PartList, Shared, Text, Values,
};
use std::alloc::{AllocError, Global};
use std::test::Fail;
use test_maps::{layer_fields, map_fields, one_feature};
use test_tables::{TableFault, check_rows};

// A feature without vertices that has this text.
fn feature(alloc: Global, text: &str) -> Result<Feature, AllocError>
    ensures { IfOk result (HasValues 0) }
{
    let text = Some(Shared::new(alloc, Text::from_str(alloc, text)?)?);
    Ok(Feature::new(FeatureFields {
        parts: PartList::empty(),
        text,
        values: Values::none(),
    }))
}

// Two further features.
fn more(alloc: Global) -> Result<Items<Feature>, AllocError>
    ensures count { IfOk result (λ features. length features ≡ 2) }
    ensures values { IfOk result (All (HasValues 0)) }
{
    let mut features = Items::new(alloc);
    features.push(feature(alloc, "second")?)?;
    features.push(feature(alloc, "third")?)?;
    Ok(features)
}

// A layer of that name with one feature.
fn layer(alloc: Global, name: &str) -> Result<Layer, AllocError>
    ensures features { IfOk result (λ l. length l.features ≡ 1) }
    ensures items { IfOk result (λ l. l.items ≡ []) }
    ensures classes { IfOk result (λ l. l.classes ≡ []) }
{
    let features = one_feature(alloc, feature(alloc, "first")?)?;
    let name = Text::from_str(alloc, name)?;
    let mut fields = layer_fields(alloc, name);
    fields.features = features;
    Ok(Layer::new(fields))
}

// A map of two layers.
fn map_of(alloc: Global, rivers: Layer, roads: Layer) -> Result<Map, AllocError>
    requires rivers { rivers.classes ≡ [] }
    requires roads { roads.classes ≡ [] }
    ensures { IfOk result (λ m. m.layers ≡ rivers ∷ roads ∷ []) }
{
    let layers = Items::of(vec![in alloc; rivers, roads]?);
    Ok(Map::new(map_fields(alloc, layers)))
}

// A map of the layers `rivers` and `roads`, each with one feature.
fn two_layers(alloc: Global) -> Result<Map, AllocError>
    ensures { IfOk result (λ m. length m.layers ≡ 2) }
{
    let rivers = layer(alloc, "rivers")?;
    let roads = layer(alloc, "roads")?;
    map_of(alloc, rivers, roads)
}

// That map with two features more in `roads`.
fn extended(alloc: Global) -> Result<Map, AllocError> {
    let rivers = layer(alloc, "rivers")?;
    let roads = layer(alloc, "roads")?;
    let more = more(alloc)?;
    let mut map = map_of(alloc, rivers, roads)?;
    map.append(alloc, 1, more)?;
    Ok(map)
}

// That map with one of its layers switched off.
fn switched(alloc: Global, index: usize) -> Result<Map, AllocError>
    requires { index < 2 }
{
    let mut map = two_layers(alloc)?;
    map.switch(index, false);
    Ok(map)
}

// That map with one of its layers emptied.
fn emptied(alloc: Global, index: usize) -> Result<Map, AllocError>
    requires { index < 2 }
{
    let mut map = two_layers(alloc)?;
    map.clear(index);
    Ok(map)
}

// A copy of that map.
fn copied(alloc: Global) -> Result<Map, AllocError> {
    let map = two_layers(alloc)?;
    map.duplicate(alloc)
}

// That map, of which a copy was emptied.
fn kept(alloc: Global) -> Result<Map, AllocError> {
    let map = two_layers(alloc)?;
    let mut copy = map.duplicate(alloc)?;
    copy.clear(0);
    copy.switch(1, false);
    drop(copy);
    Ok(map)
}

// What a map has: of each layer its name, whether it is on, and the texts of its features.
fn said(alloc: Global, map: &Map) -> Result<String, AllocError> {
    let mut said = String::new(alloc);
    for layer in map.get().layers.as_slice() {
        let layer = layer.get();
        write!(said, "{} {}", layer.name.as_str(), layer.on)?;
        for feature in layer.features.as_slice() {
            let text = match &feature.get().text {
                Some(text) => text.get().as_str(),
                None => "-",
            };
            write!(said, " {text}")?;
        }
        said.push_str(", ")?;
    }
    Ok(said)
}

// What a map says after a change.
const CHANGES: &str = "\
rivers true first, roads true first second third, =append
rivers false first, roads true first, =switch the first
rivers true first, roads false first, =switch the second
rivers true, roads true first, =clear the first
rivers true first, roads true, =clear the second
rivers true first, roads true first, =copy
rivers true first, roads true first, =change a copy";

fn changed(alloc: Global, change: &str) -> Result<String, AllocError> {
    let map = match change {
        "append" => extended(alloc)?,
        "switch the first" => switched(alloc, 0)?,
        "switch the second" => switched(alloc, 1)?,
        "clear the first" => emptied(alloc, 0)?,
        "clear the second" => emptied(alloc, 1)?,
        "copy" => copied(alloc)?,
        "change a copy" => kept(alloc)?,
        _ => return String::from_str(alloc, "malformed"),
    };
    said(alloc, &map)
}

#[test]
fn layers_are_changed_by_their_indices(rt: HostRuntime) -> Result<(), TableFault> {
    check_rows(rt.alloc(), CHANGES, '=', 7, changed)
}

// 199,999 features.
fn many(alloc: Global) -> Result<Items<Feature>, AllocError>
    ensures count { IfOk result (λ features. length features ≤ 199999) }
    ensures values { IfOk result (All (HasValues 0)) }
{
    let one = feature(alloc, "many")?;
    let mut features = Items::new(alloc);
    for _number in 0..199_999_u32 {
        features.push(one.duplicate(alloc)?)?;
    }
    Ok(features)
}

// How many features a layer has that is filled up.
fn most(alloc: Global) -> Result<usize, AllocError> {
    let more = many(alloc)?;
    let mut layer = layer(alloc, "roads")?;
    layer.append(alloc, more)?;
    Ok(layer.get().features.len())
}

#[test]
fn layers_are_extended_up_to_their_limit(rt: HostRuntime) -> Result<(), Fail> {
    let count = most(rt.alloc())?;
    assert_eq!(rt; count, 200_000);
    Ok(())
}
