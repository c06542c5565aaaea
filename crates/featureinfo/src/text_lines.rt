ghost use Rattle.std.specs.Prelude.{◌≡◌, ◌++◌, IfOk, OnOk};
ghost use Rattle.std.specs.List.{flat_map};
ghost use Rattle.featureinfo.specs.Answer.{item_line, item_lines, feature_lines, lines_at, layer_line, layer_lines, hit_lines, first_line, answer};

use crate::layer_hits::LayerHits;
use itoa::Buffer;
use mapdefs::{FeatureFields, Items, LayerFields, Map, MapFields, Text, Values};
use std::alloc::{AllocError, Global};

// Adds a text as it is.
fn add(out: &mut Vec<u8>, text: &str) -> Result<(), AllocError>
    ensures { OnOk result (out.new.items ≡ out.old.items ++ text.now) }
{
    out.extend_from_slice(text.as_bytes())
}

// Adds the line of an item.
#[tactic(auto, unfolding(crate::specs::Answer::item_line))]
fn add_item(out: &mut Vec<u8>, name: &str, value: &str) -> Result<(), AllocError>
    ensures { OnOk result (out.new.items ≡ out.old.items ++ item_line name.now value.now) }
{
    add(out, "    ")?;
    add(out, name)?;
    add(out, " = '")?;
    add(out, value)?;
    add(out, "'\n")
}

// Adds the lines of the items of a feature.
fn add_items(out: &mut Vec<u8>, names: &[Text], values: &Values) -> Result<(), AllocError>
    ensures { OnOk result (out.new.items ≡ out.old.items ++ item_lines names.now values.now) }
{
    for (index, name) in names.iter().enumerate() {
        let Some(value) = values.get(index) else {
            return Ok(());
        };
        add_item(out, name.as_str(), value)?;
    }
    Ok(())
}

// Adds the lines of a feature.
#[tactic(auto, unfolding(crate::specs::Answer::feature_lines))]
fn add_feature(
    out: &mut Vec<u8>,
    names: &[Text],
    index: usize,
    feature: &FeatureFields,
) -> Result<(), AllocError>
    ensures { OnOk result (out.new.items ≡ out.old.items ++ feature_lines names.now index feature.now) }
{
    add(out, "  Feature ")?;
    add(out, Buffer::new().format(index))?;
    add(out, ":\n")?;
    add_items(out, names, &feature.values)
}

// Adds the lines of the feature at an index.
fn add_at(out: &mut Vec<u8>, layer: &LayerFields, index: usize) -> Result<(), AllocError>
    ensures { OnOk result (out.new.items ≡ out.old.items ++ lines_at layer.now index) }
{
    match layer.features.as_slice().get(index) {
        Some(feature) => { add_feature(out, layer.items.as_slice(), index, feature.get()) }
        None => Ok(()),
    }
}

// Adds the lines of some features.
fn add_features(out: &mut Vec<u8>, layer: &LayerFields, indices: &[u32]) -> Result<(), AllocError>
    ensures { OnOk result (out.new.items ≡ out.old.items ++ flat_map (lines_at layer.now) indices.now) }
{
    for index in indices {
        add_at(out, layer, *index as usize)?;
    }
    Ok(())
}

// Adds the line of a layer.
#[tactic(auto, unfolding(crate::specs::Answer::layer_line))]
fn add_layer_line(out: &mut Vec<u8>, name: &str) -> Result<(), AllocError>
    ensures { OnOk result (out.new.items ≡ out.old.items ++ layer_line name.now) }
{
    add(out, "Layer '")?;
    add(out, name)?;
    add(out, "'\n")
}

// Adds the lines of a layer's hits.
fn add_layer(out: &mut Vec<u8>, layer: &LayerFields, indices: &[u32]) -> Result<(), AllocError>
    ensures { OnOk result (out.new.items ≡ out.old.items ++ layer_lines layer.now indices.now) }
{
    match indices {
        [] => Ok(()),
        [_, ..] => {
            add_layer_line(out, layer.name.as_str())?;
            add_features(out, layer, indices)
        }
    }
}

// Adds the lines of the hits of a layer of the map.
fn add_hits(out: &mut Vec<u8>, map: &MapFields, hits: &LayerHits) -> Result<(), AllocError>
    ensures { OnOk result (out.new.items ≡ out.old.items ++ hit_lines map.now hits.now) }
{
    match map.layers.as_slice().get(hits.layer) {
        Some(layer) => add_layer(out, layer.get(), hits.features.get().as_slice()),
        None => Ok(()),
    }
}

// The first line of a text.
#[tactic(auto, unfolding(crate::specs::Answer::first_line))]
fn first_line() -> &'static str
    ensures { result.now ≡ first_line }
{
    "GetFeatureInfo results:\n"
}

/// The text of the hits of some layers. An index that the map doesn't have is skipped. The error says
/// that memory was refused.
pub fn text(alloc: Global, map: &Map, hits: &[LayerHits]) -> Result<Items<u8>, AllocError>
    ensures { IfOk result (λ bytes. bytes ≡ answer map.now hits.now) }
{
    let map = map.get();
    let mut out = Vec::new(alloc);
    add(&mut out, first_line())?;
    for found in hits {
        add_hits(&mut out, map, found)?;
    }
    Ok(Items::of(out))
}
