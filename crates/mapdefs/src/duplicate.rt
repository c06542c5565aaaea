ghost use Rattle.std.specs.Prelude.{◌≡◌, IfOk};

use crate::{
    Feature, FeatureFields, Items, Layer, LayerFields, Map, MapFields, Shared, SharedItems, Text,
};
use std::alloc::{AllocError, Global};

/// Values that can be copied to equal ones.
pub trait Duplicate: Sized + Drop {
    /// An equal value of its own.
    fn duplicate(&self, alloc: Global) -> Result<Self, AllocError>
        ensures { IfOk result (λ made. made ≡ self.now) };
}

impl Duplicate for Text {
    fn duplicate(&self, alloc: Global) -> Result<Text, AllocError> {
        Text::from_str(alloc, self.as_str())
    }
}

/// The value itself is shared.
impl<T: Drop> Duplicate for Shared<T> {
    fn duplicate(&self, _alloc: Global) -> Result<Shared<T>, AllocError> {
        self.share()
    }
}

impl<T: Duplicate> Duplicate for Option<T> {
    fn duplicate(&self, alloc: Global) -> Result<Option<T>, AllocError> {
        match self {
            Some(value) => Ok(Some(value.duplicate(alloc)?)),
            None => Ok(None),
        }
    }
}

/// The list itself is shared.
impl<T: Drop> Duplicate for SharedItems<T> {
    fn duplicate(&self, _alloc: Global) -> Result<SharedItems<T>, AllocError> {
        self.share()
    }
}

impl<T: Duplicate> Duplicate for Items<T> {
    fn duplicate(&self, alloc: Global) -> Result<Items<T>, AllocError> {
        let mut made = Vec::with_capacity(alloc, self.len())?;
        for item in self.as_slice() {
            made.push(item.duplicate(alloc)?)?;
        }
        Ok(Items::of(made))
    }
}

/// Whatever takes memory is shared.
impl Duplicate for Feature {
    fn duplicate(&self, alloc: Global) -> Result<Feature, AllocError> {
        let fields = self.get();
        Ok(Feature::new(FeatureFields {
            parts: fields.parts.share()?,
            text: fields.text.duplicate(alloc)?,
            values: fields.values.share()?,
        }))
    }
}

impl Duplicate for Layer {
    fn duplicate(&self, alloc: Global) -> Result<Layer, AllocError> {
        let fields = self.get();
        Ok(Layer::new(LayerFields {
            name: fields.name.duplicate(alloc)?,
            title: fields.title.duplicate(alloc)?,
            kind: fields.kind,
            on: fields.on,
            classitem: fields.classitem.duplicate(alloc)?,
            labelitem: fields.labelitem.duplicate(alloc)?,
            items: fields.items.duplicate(alloc)?,
            csv_x: fields.csv_x.duplicate(alloc)?,
            csv_y: fields.csv_y.duplicate(alloc)?,
            queryable: fields.queryable,
            tolerance: fields.tolerance,
            min: fields.min,
            max: fields.max,
            classes: fields.classes.duplicate(alloc)?,
            features: fields.features.duplicate(alloc)?,
        }))
    }
}

impl Duplicate for Map {
    fn duplicate(&self, alloc: Global) -> Result<Map, AllocError> {
        let fields = self.get();
        Ok(Map::new(MapFields {
            title: fields.title.duplicate(alloc)?,
            url: fields.url.duplicate(alloc)?,
            extent: fields.extent,
            png: fields.png,
            mercator: fields.mercator,
            smoothing: fields.smoothing,
            fonts: fields.fonts.duplicate(alloc)?,
            symbols: fields.symbols.duplicate(alloc)?,
            layers: fields.layers.duplicate(alloc)?,
        }))
    }
}
