use crate::{Limited, Limits, PartList, Shared, Text, Values};

/// What a feature says.
#[derive(Drop)]
pub struct FeatureFields {
    /// Its parts: rings of a polygon, lines, or points.
    pub parts: PartList,
    /// The text of its label, where it has one of its own.
    pub text: Option<Shared<Text>>,
    /// The values of the layer's items, in the layer's order.
    pub values: Values,
}

impl Limits for FeatureFields {
    ghost use Rattle.mapdefs.specs.FeatureLimits.{IsFeatureWithinLimits};

    ghost within = { IsFeatureWithinLimits };
}

/// A feature of a layer, with at most `MAX_VERTICES` vertices. Its copies share what it takes memory for.
pub type Feature = Limited<FeatureFields>;
