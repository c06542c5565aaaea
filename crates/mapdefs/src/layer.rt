ghost use Rattle.std.specs.Prelude.{◌≡◌, ◌+◌, ◌<◌, ◌≤◌, length, All, OnOk, OnErr};
ghost use Rattle.mapdefs.specs.Change.{changed_at, switched, extended, emptied, CanTakeAt};
ghost use Rattle.mapdefs.specs.LayerLimits.{HasValues};
ghost use Rattle.mapdefs.specs.declared.limits.TheConstants.{MAX_FEATURES};

use crate::{Class, Feature, Items, Limited, Limits, SharedItems, Text};
use geom::Micro;
use std::alloc::{AllocError, Global};

/// What the features of a layer are.
#[derive(Clone, Copy, Debug)]
pub enum Geometry {
    Point,
    Line,
    Polygon,
}

/// What a layer says. `min` and `max` bound the scale denominator at which it is visible, in millionths.
/// `min` is included and `max` is not, and a `max` of 0 or less is none.
#[derive(Drop)]
pub struct LayerFields {
    pub name: Text,
    pub title: Text,
    pub kind: Geometry,
    /// Whether the layer is switched on.
    pub on: bool,
    /// The item that classes look at.
    pub classitem: Option<Text>,
    /// The item that labels show.
    pub labelitem: Option<Text>,
    /// The names of the items.
    pub items: Items<Text>,
    /// The columns of longitude and latitude in the layer's tables.
    pub csv_x: Text,
    pub csv_y: Text,
    /// Whether its features may be requested by GetFeatureInfo.
    pub queryable: bool,
    /// How far from the queried pixel a feature counts, in pixels.
    pub tolerance: u8,
    pub min: Option<Micro>,
    pub max: Option<Micro>,
    pub classes: SharedItems<Class>,
    pub features: SharedItems<Feature>,
}

impl Limits for LayerFields {
    ghost use Rattle.mapdefs.specs.LayerLimits.{IsLayerWithinLimits};

    ghost within = { IsLayerWithinLimits };
}

/// A layer. It has at most `MAX_ITEMS` items, `MAX_CLASSES` classes and `MAX_FEATURES` features, each
/// with one value per item, and a tolerance of at most `MAX_TOLERANCE`.
pub type Layer = Limited<LayerFields>;

impl Layer {
    /// Switches it on or off.
    pub fn switch(&mut self, on: bool)
        ensures { self.new ≡ switched on self.old }
    {
        self.fields.on = on;
    }

    /// Adds features after those that it has. Where memory is refused nothing changes.
    pub fn append(&mut self, alloc: Global, features: Items<Feature>) -> Result<(), AllocError>
        requires room { length self.old.features + length features ≤ MAX_FEATURES }
        requires values { All (HasValues (length self.old.items)) features }
        ensures ok { OnOk result (self.new ≡ extended features self.old) }
        ensures err { OnErr result (self.new ≡ self.old) }
    {
        self.fields.features.append(alloc, features)?;
        Ok(())
    }

    /// Takes all features out. It takes no memory.
    pub fn clear(&mut self)
        ensures { self.new ≡ emptied self.old }
    {
        self.fields.features = SharedItems::empty();
    }
}

// Switches the layer of that index on or off.
pub(crate) fn switch_at(layers: &mut Items<Layer>, index: usize, on: bool)
    requires { index < length layers.old }
    ensures { layers.new ≡ changed_at index (switched on) layers.old }
{
    let layer = &mut layers.items[index];
    layer.switch(on);
}

// Adds features to the layer of that index. Where memory is refused nothing changes.
pub(crate) fn append_at(
    alloc: Global,
    layers: &mut Items<Layer>,
    index: usize,
    features: Items<Feature>,
) -> Result<(), AllocError>
    requires { CanTakeAt features index layers.old }
    ensures ok { OnOk result (layers.new ≡ changed_at index (extended features) layers.old) }
    ensures err { OnErr result (layers.new ≡ layers.old) }
{
    let layer = &mut layers.items[index];
    layer.append(alloc, features)
}

// Takes all features out of the layer of that index.
pub(crate) fn clear_at(layers: &mut Items<Layer>, index: usize)
    requires { index < length layers.old }
    ensures { layers.new ≡ changed_at index emptied layers.old }
{
    let layer = &mut layers.items[index];
    layer.clear();
}
