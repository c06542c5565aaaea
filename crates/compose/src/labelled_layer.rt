ghost use Rattle.std.specs.Prelude.{◌≡◌, ◌<◌, ◌++◌, All, OnOk, length};
ghost use Rattle.std.specs.List.{flat_map, list_any};
ghost use Rattle.compose.specs.Drawn.{with_candidates};
ghost use Rattle.compose.specs.Labels.{has_label, classified_candidates};
ghost use Rattle.compose.specs.Walk.{given_at, classified_chosen, classified_feature};

use crate::classified_feature::ClassifiedFeature;
use crate::label::add_candidate;
use crate::label_scene::LabelScene;
use labelcache::Cache;
use mapdefs::{FeatureFields, LayerFields, Near};
use scene::Scene;
use std::alloc::AllocError;

/// Adds the candidates of the layer at an index, where it shows at the scale, and paints nothing. A layer without
/// labels is skipped.
pub fn add_layer<'a, N: Near>(
    labels: &mut Cache<'a>,
    scene: &LabelScene<'_, 'a>,
    near: &N,
    index: usize,
) -> Result<(), AllocError>
    requires near { N.map_of near.now ≡ scene.now.map }
    requires index { index < length scene.now.map.layers }
    ensures { OnOk result
        (labels.new ≡ labels.old ++ flat_map (classified_candidates scene.now.view scene.now.map.fonts)
        (classified_chosen scene.now.scale scene.now.map index)) }
{
    let layer = scene.layer(index);
    if !scene.shows(layer) {
        return Ok(());
    }
    if !has_labels(layer) {
        return Ok(());
    }
    let found = near.candidates(index, scene.window())?;
    add_features(labels, scene, layer, &found)
}

/// Adds the candidates of the layer at an index on the scene's canvas, as `add_layer` does, where candidates are collected.
pub fn collect_layer<'a, N: Near>(
    labels: &mut Option<Cache<'a>>,
    scene: &Scene<'a>,
    near: &N,
    index: usize,
) -> Result<(), AllocError>
    requires near { N.map_of near.now ≡ scene.now.map }
    requires index { index < length scene.now.map.layers }
    ensures { OnOk result
        (labels.new ≡ with_candidates labels.old (flat_map (classified_candidates scene.now.view scene.now.map.fonts)
        (classified_chosen scene.now.scale scene.now.map index))) }
{
    match labels {
        Some(labels) => add_layer(labels, &LabelScene::of_canvas(scene), near, index),
        None => Ok(()),
    }
}

// Whether some class of a layer has a label.
fn has_labels(layer: &LayerFields) -> bool
    ensures { result ≡ list_any has_label layer.now.classes }
{
    for class in layer.classes.as_slice() {
        if class.get().label.is_some() {
            return true;
        }
    }
    false
}

// Adds the candidates of the features at those indices in the layer, in order.
fn add_features<'a>(
    labels: &mut Cache<'a>,
    scene: &LabelScene<'_, '_>,
    layer: &'a LayerFields,
    found: &[u32],
) -> Result<(), AllocError>
    requires { All (λ k. k < length layer.now.features) found.now }
    ensures { OnOk result
        (labels.new ≡ labels.old ++ flat_map (classified_candidates scene.now.view scene.now.map.fonts)
        (flat_map (given_at (classified_feature scene.now.scale layer.now) layer.now.features) found.now)) }
{
    let features = layer.features.as_slice();
    for index in found {
        add_feature(labels, scene, layer, features[*index as usize].get())?;
    }
    Ok(())
}

// Adds the candidate of a feature of the layer, if the feature has a class at the scale.
fn add_feature<'a>(
    labels: &mut Cache<'a>,
    scene: &LabelScene<'_, '_>,
    layer: &'a LayerFields,
    feature: &'a FeatureFields,
) -> Result<(), AllocError>
    ensures { OnOk result
        (labels.new ≡ labels.old ++ flat_map (classified_candidates scene.now.view scene.now.map.fonts)
        (classified_feature scene.now.scale layer.now feature.now)) }
{
    match scene.class_of(layer, feature) {
        Some(class) => add_candidate(
            labels,
            scene,
            &ClassifiedFeature::new(layer, feature, class),
        ),
        None => Ok(()),
    }
}
