ghost use Rattle.std.specs.Prelude.{◌≡◌};
ghost use Rattle.std.specs.Option.{option_copied};
ghost use Rattle.mapdefs.specs.Class.{class_value, holds};
ghost use Rattle.scene.specs.Classes.{class_of};

use expressions::{holds, item_value};
use mapdefs::{ClassFields, FeatureFields, LayerFields};
use scaledenom::Scale;

// The value that the rules of the layer's classes look at.
fn class_value<'a>(layer: &LayerFields, feature: &'a FeatureFields) -> &'a str
    ensures { result.now ≡ class_value layer.now feature.now }
{
    match &layer.classitem {
        Some(name) => item_value(layer.items.as_slice(), &feature.values, name.as_str()),
        None => "",
    }
}

// Whether the class's rule is true of a feature of the layer. The value is that of the class item.
fn takes(class: &ClassFields, layer: &LayerFields, feature: &FeatureFields, value: &str) -> bool
    requires { value.now ≡ class_value layer.now feature.now }
    ensures { result ≡ holds class.now.rule layer.now.items feature.now.values (class_value layer.now feature.now) }
{
    holds(&class.rule, layer.items.as_slice(), &feature.values, value)
}

/// The class of a feature of the layer at the scale: the first one that it may be of.
pub fn first_class<'l>(
    scale: Scale,
    layer: &'l LayerFields,
    feature: &FeatureFields,
) -> Option<&'l ClassFields>
    ensures { option_copied result ≡ class_of scale layer.now feature.now }
{
    let value = class_value(layer, feature);
    for class in layer.classes.as_slice() {
        let class = class.get();
        if scale.within(class.min, class.max) && takes(class, layer, feature, value) {
            return Some(class);
        }
    }
    None
}
