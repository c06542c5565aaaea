ghost use Rattle.std.specs.Prelude.{◌≡◌};

use mapdefs::{ClassFields, FeatureFields, LayerFields};
use std::marker::Model;

/// A feature that has a class at the scale, with its layer and its class.
#[derive(Drop)]
pub struct ClassifiedFeature<'a> {
    layer: &'a LayerFields,
    feature: &'a FeatureFields,
    class: &'a ClassFields,
}

impl<'a> Model for ClassifiedFeature<'a> {
    ghost use Rattle.mapdefs.specs.contracts.expr.Expr as expr;
    ghost use Rattle.std.specs.Coded.{codes};
    ghost use Rattle.compose.specs.Walk.{ClassifiedFeatureValue};

    ghost Value = { ClassifiedFeatureValue };

    ghost coded = { Prim.hlevel (codes, expr.the_row.coded) };

    ghost view = { λ m. record { layer = m.layer.now; feature = m.feature.now; class = m.class.now } };
}

impl<'a> ClassifiedFeature<'a> {
    /// The feature, with its layer and one of the layer's classes.
    pub fn new(layer: &'a LayerFields, feature: &'a FeatureFields, class: &'a ClassFields) -> Self
        ensures { result ≡ record { layer = layer.now; feature = feature.now; class = class.now } }
    {
        ClassifiedFeature {
            layer,
            feature,
            class,
        }
    }

    /// The feature's layer.
    pub fn layer(&self) -> &'a LayerFields
        ensures { result.now ≡ self.now.layer }
    {
        self.layer
    }

    /// The feature.
    pub fn feature(&self) -> &'a FeatureFields
        ensures { result.now ≡ self.now.feature }
    {
        self.feature
    }

    /// The feature's class.
    pub fn class(&self) -> &'a ClassFields
        ensures { result.now ≡ self.now.class }
    {
        self.class
    }
}
