ghost use Rattle.std.specs.Prelude.{◌≡◌};
ghost use Rattle.std.specs.Option.{option_copied};
ghost use Rattle.scene.specs.Classes.{class_of};
ghost use Rattle.compose.specs.Classes.{common_class, takes_all};

use mapdefs::{ClassFields, FeatureFields, LayerFields, Rule};
use scene::Scene;
use std::marker::Model;

/// A layer, and the class that all its features have at any scale, if there is one. So a layer with one class and no
/// expression has its class looked up once.
#[derive(Drop)]
pub struct LayerClasses<'a> {
    layer: &'a LayerFields,
    common: Option<&'a ClassFields>,
}

impl<'a> Model for LayerClasses<'a> {
    ghost use Rattle.std.specs.Prelude.{◌≡◌};
    ghost use Rattle.std.specs.Option.{option_copied};
    ghost use Rattle.mapdefs.specs.declared.layer.LayerFields.{LayerFields};
    ghost use Rattle.mapdefs.specs.contracts.expr.Expr as expr;
    ghost use Rattle.std.specs.Coded.{codes};
    ghost use Rattle.compose.specs.Classes.{common_class};

    ghost Value = { LayerFields };

    ghost coded = { Prim.hlevel (codes, expr.the_row.coded) };

    ghost view = { λ c. c.layer.now };

    ghost invariant = { λ c. option_copied c.common ≡ common_class c.layer.now.classes };
}

impl<'a> LayerClasses<'a> {
    /// The classes of a layer.
    pub fn new(layer: &'a LayerFields) -> Self
        ensures { result ≡ layer.now }
    {
        LayerClasses {
            layer,
            common: common_class(layer),
        }
    }

    /// The layer.
    pub fn layer(&self) -> &'a LayerFields
        ensures { result.now ≡ self.now }
    {
        self.layer
    }

    /// The class of a feature of the layer at the scale of a scene: the first one that it may be of.
    pub fn class_of(&self, scene: &Scene<'_>, feature: &FeatureFields) -> Option<&'a ClassFields>
        ensures { option_copied result ≡ class_of scene.now.scale self.now feature.now }
    {
        match self.common {
            Some(class) => Some(class),
            None => scene.class_of(self.layer, feature),
        }
    }
}

// The class that all features of a layer have at any scale: its first one, if that takes all.
fn common_class(layer: &LayerFields) -> Option<&ClassFields>
    ensures { option_copied result ≡ common_class layer.now.classes }
{
    let class = layer.classes.as_slice().first()?.get();
    if takes_all(class) { Some(class) } else { None }
}

// Whether a class takes all features at any scale.
fn takes_all(class: &ClassFields) -> bool
    ensures { result ≡ takes_all class.now }
{
    matches!(class.rule, Rule::Always) && matches!(class.min, None) && matches!(class.max, None)
}
