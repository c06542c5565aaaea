ghost use Rattle.std.specs.Prelude.{◌≡◌, ◌<◌, ◌+◌, ◌≤◌, length, All, OnOk, OnErr, IfSome, slice_get};
ghost use Rattle.mapdefs.specs.LayerLimits.{HasValues};
ghost use Rattle.mapdefs.specs.declared.limits.TheConstants.{MAX_FEATURES};

use crate::layer::{append_at, clear_at, switch_at};
use crate::{Feature, Font, Items, Layer, Limited, Limits, SharedItems, Symbol, Text};
use geom::{Factor, WorldBox};
use std::alloc::{AllocError, Global};

/// What a map says.
#[derive(Drop)]
pub struct MapFields {
    /// The title of the service.
    pub title: Text,
    /// The address under which the service is reached.
    pub url: Text,
    /// The part of the world that the map shows.
    pub extent: WorldBox,
    /// Whether the service offers pictures in the format PNG.
    pub png: bool,
    /// Whether the service offers pictures in web mercator.
    pub mercator: bool,
    /// How many times as fine as the map's pictures those are of which they are the means.
    pub smoothing: Factor,
    /// The fonts of the labels.
    pub fonts: SharedItems<Font>,
    pub symbols: SharedItems<Symbol>,
    pub layers: Items<Layer>,
}

impl Limits for MapFields {
    ghost use Rattle.mapdefs.specs.MapLimits.{IsMapWithinLimits};

    ghost within = { IsMapWithinLimits };
}

/// A map. It has at most `MAX_SYMBOLS` symbols and `MAX_LAYERS` layers, an extent with an area within
/// 1,000 degrees, and each symbol that a style names by its index is there.
pub type Map = Limited<MapFields>;

impl Map {
    ghost use Rattle.mapdefs.specs.Name.{index_of};
    ghost use Rattle.mapdefs.specs.Change.{with_layer, switched, extended, emptied, CanTakeAt};

    /// The index of the first layer of that name, compared byte by byte.
    pub fn find(&self, name: &[u8]) -> Option<usize>
        ensures value { result ≡ index_of name.now self.now.layers }
        ensures within { IfSome result (λ index. index < length self.now.layers) }
    {
        let layers = self.get().layers.as_slice();
        layers
            .iter()
            .position(|layer| layer.get().name.as_str().as_bytes() == name)
    }

    /// Switches the layer of that index on or off.
    pub fn switch(&mut self, index: usize, on: bool)
        requires { index < length self.old.layers }
        ensures { self.new ≡ with_layer index (switched on) self.old }
    {
        switch_at(&mut self.fields.layers, index, on);
    }

    /// Adds features to the layer of that index, after those that it has. Where memory is refused
    /// nothing changes.
    pub fn append(
        &mut self,
        alloc: Global,
        index: usize,
        features: Items<Feature>,
    ) -> Result<(), AllocError>
        requires { CanTakeAt features index self.old.layers }
        ensures ok { OnOk result (self.new ≡ with_layer index (extended features) self.old) }
        ensures err { OnErr result (self.new ≡ self.old) }
    {
        append_at(alloc, &mut self.fields.layers, index, features)
    }

    /// Takes all features out of the layer of that index.
    pub fn clear(&mut self, index: usize)
        requires { index < length self.old.layers }
        ensures { self.new ≡ with_layer index emptied self.old }
    {
        clear_at(&mut self.fields.layers, index);
    }
}
