ghost use Rattle.std.specs.Prelude.{◌≡◌, ◌≤◌, ◌++◌, length, IfSome, OnOk};
ghost use Rattle.std.specs.Option.{option_copied};
ghost use Rattle.std.specs.Str.{chars};
ghost use Rattle.bdffont.specs.declared.text.TheConstants.{MAX_CHARACTERS};
ghost use Rattle.mapdefs.specs.StyleLimits.{IsLabelWithinLimits};
ghost use Rattle.compose.specs.Drawn.{with_candidates};
ghost use Rattle.compose.specs.Labels.{feature_text, first_characters, label_text, written_label, classified_candidates};

use crate::anchor::shown_anchor;
use crate::classified_feature::ClassifiedFeature;
use crate::label_scene::LabelScene;
use bdffont::{MAX_CHARACTERS, split_char};
use expressions::item_value;
use labelcache::{Cache, Candidate};
use mapdefs::{ClassFields, FeatureFields, Font, LabelFields, LayerFields};
use scene::Scene;
use std::alloc::AllocError;

// The text of a feature: its own, else the value of the layer's label item.
fn feature_text<'a>(layer: &LayerFields, feature: &'a FeatureFields) -> &'a str
    ensures { result.now ≡ feature_text layer.now feature.now }
{
    if let Some(text) = &feature.text {
        return text.get().as_str();
    }
    match &layer.labelitem {
        Some(name) => item_value(layer.items.as_slice(), &feature.values, name.as_str()),
        None => "",
    }
}

// The first so many characters of a text.
fn first_characters(text: &str, most: usize) -> &str
    ensures cut { result.now ≡ first_characters most text.now }
    ensures short { length (chars result.now) ≤ most }
{
    // A character has at least one byte.
    if text.len() <= most {
        return text;
    }
    let mut rest = text;
    let mut count = 0;
    while count < most {
        let Some((_, after)) = split_char(rest) else {
            return text;
        };
        rest = after;
        count += 1;
    }
    &text[..text.len() - rest.len()]
}

// The text of a feature's label.
fn label_text<'a>(layer: &LayerFields, feature: &'a FeatureFields) -> &'a str
    ensures text { result.now ≡ label_text layer.now feature.now }
    ensures short { length (chars result.now) ≤ MAX_CHARACTERS }
{
    first_characters(feature_text(layer, feature), MAX_CHARACTERS)
}

// The label of a class, if it has one whose font is among these.
fn written_label<'a>(fonts: &[Font], class: &'a ClassFields) -> Option<&'a LabelFields>
    ensures label { option_copied result ≡ written_label fonts.now class.now }
    ensures limits { IfSome result (λ label. IsLabelWithinLimits label.now) }
{
    let Some(label) = &class.label else {
        return None;
    };
    let label = label.get();
    match label.font_in(fonts) {
        Some(_) => Some(label),
        None => None,
    }
}

/// Adds the candidate of a classified feature, if it has one.
pub fn add_candidate<'a>(
    labels: &mut Cache<'a>,
    scene: &LabelScene<'_, '_>,
    classified: &ClassifiedFeature<'a>,
) -> Result<(), AllocError>
    ensures { OnOk result (labels.new ≡ labels.old ++ classified_candidates scene.now.view scene.now.map.fonts classified.now) }
{
    let Some(label) = written_label(scene.fonts(), classified.class()) else {
        return Ok(());
    };
    let text = label_text(classified.layer(), classified.feature());
    if text.is_empty() {
        return Ok(());
    }
    match shown_anchor(scene, classified.layer().kind, classified.feature()) {
        Some(anchor) => { labels.add(Candidate::new(text, anchor, label, scene.factor())) }
        None => Ok(()),
    }
}

/// Adds the candidate of a classified feature on the scene's canvas, if it has one, where candidates are collected.
pub fn collect_candidate<'a>(
    labels: &mut Option<Cache<'a>>,
    scene: &Scene<'_>,
    classified: &ClassifiedFeature<'a>,
) -> Result<(), AllocError>
    ensures { OnOk result (labels.new ≡ with_candidates labels.old (classified_candidates scene.now.view scene.now.map.fonts classified.now)) }
{
    match labels {
        Some(labels) => add_candidate(labels, &LabelScene::of_canvas(scene), classified),
        None => Ok(()),
    }
}
