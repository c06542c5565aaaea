ghost use Rattle.std.specs.Prelude.{◌≡◌, OnOk};
ghost use Rattle.maptree.specs.Draft.{fresh, new_map, new_layer, new_class, new_feature, noted_by_map, noted_by_feature, with_value, is_full};
ghost use Rattle.maptree.specs.Entries.{has_effect};

use crate::files::add_font;
use crate::parts::PartsDraft;
use crate::tree::{ClassTree, LayerBody, MapTree};
use mapdefs::{Items, Text};
use mapvalues::Values;
use mapwords::{Block, Capped, ColourKeyword, TextKeyword, Value};
use std::alloc::{AllocError, Global};
use std::mem;

/// What was read of the open FEATURE.
#[derive(Drop)]
pub struct FeatureDraft {
    pub parts: PartsDraft,
    pub text: Option<Text>,
    pub items: Option<Text>,
}

/// What was read of the open blocks. The draft of a block that isn't open is a new one.
#[derive(Drop)]
pub struct Drafts {
    pub map: MapTree,
    pub symbol: Values,
    pub layer: LayerBody,
    pub class: ClassTree,
    pub style: Values,
    pub label: Values,
    pub feature: FeatureDraft,
}

// Whether a value has an effect.
fn has_effect(value: &Value) -> bool
    ensures { result ≡ has_effect value.now }
{
    match value {
        Value::Colour(ColourKeyword::ImageColor, _) | Value::Nothing => false,
        _ => true,
    }
}

impl MapTree {
    /// A MAP of which nothing was read.
    pub fn new(alloc: Global) -> Self
        ensures { result ≡ new_map }
    {
        MapTree {
            values: Values::new(alloc),
            symbols: Capped::new(alloc),
            layers: Capped::new(alloc),
            files: Items::new(alloc),
        }
    }

    // Notes a value of the MAP. That of a font names a file that is used.
    fn set(&mut self, value: Value, alloc: Global) -> Result<(), AllocError>
        ensures { OnOk result (self.new ≡ noted_by_map value self.old) }
    {
        if let Value::Font(key, file) = &value {
            add_font(&mut self.files, key, file, alloc)?;
        }
        self.values.push(value)
    }
}

impl LayerBody {
    /// A LAYER of which nothing was read.
    pub fn new(alloc: Global) -> Self
        ensures { result ≡ new_layer }
    {
        LayerBody {
            values: Values::new(alloc),
            classes: Capped::new(alloc),
            features: Capped::new(alloc),
        }
    }
}

impl ClassTree {
    /// A CLASS of which nothing was read.
    pub fn new(alloc: Global) -> Self
        ensures { result ≡ new_class }
    {
        ClassTree {
            values: Values::new(alloc),
            styles: Capped::new(alloc),
            label: None,
        }
    }
}

impl FeatureDraft {
    /// A FEATURE of which nothing was read.
    pub fn new(alloc: Global) -> Self
        ensures { result ≡ new_feature }
    {
        FeatureDraft {
            parts: PartsDraft::new(alloc),
            text: None,
            items: None,
        }
    }

    // Notes a value of the FEATURE.
    fn set(&mut self, value: Value)
        ensures { self.new ≡ noted_by_feature value self.old }
    {
        match value {
            Value::Text(TextKeyword::Text, named) => self.text = Some(named.text),
            Value::Text(TextKeyword::Items, named) => self.items = Some(named.text),
            _ => {}
        }
    }
}

impl Drafts {
    /// No block was read.
    pub fn new(alloc: Global) -> Self
        ensures { result ≡ fresh }
    {
        Drafts {
            map: MapTree::new(alloc),
            symbol: Values::new(alloc),
            layer: LayerBody::new(alloc),
            class: ClassTree::new(alloc),
            style: Values::new(alloc),
            label: Values::new(alloc),
            feature: FeatureDraft::new(alloc),
        }
    }

    /// The map, in whose place a new one is left.
    pub fn take_map(&mut self, alloc: Global) -> MapTree
        ensures map { result ≡ self.old.map }
        ensures left { self.new ≡ record self.old { map = new_map } }
    {
        mem::replace(&mut self.map, MapTree::new(alloc))
    }

    /// Notes a value of a block, after those that the block has already. After an error the drafts are of no
    /// further use.
    pub fn set(&mut self, block: Block, value: Value, alloc: Global) -> Result<(), AllocError>
        ensures { OnOk result (self.new ≡ with_value block value self.old) }
    {
        if !has_effect(&value) {
            return Ok(());
        }
        match block {
            Block::Map => self.map.set(value, alloc)?,
            Block::Web | Block::WebMetadata => self.map.values.push(value)?,
            Block::Symbol => self.symbol.push(value)?,
            Block::Layer | Block::LayerMetadata => self.layer.values.push(value)?,
            Block::Class => self.class.values.push(value)?,
            Block::Style => self.style.push(value)?,
            Block::Label => self.label.push(value)?,
            Block::Feature => self.feature.set(value),
            // Their keywords have no effect.
            Block::Points
            | Block::Validation
            | Block::Projection
            | Block::Skipped
            | Block::SkippedLabel => {}
        }
        Ok(())
    }

    /// Whether a further block of the kind is one more than a map may have.
    pub fn is_full(&self, block: Block) -> bool
        ensures { result ≡ is_full block self.now }
    {
        match block {
            Block::Symbol => self.map.symbols.is_full(),
            Block::Layer => self.map.layers.is_full(),
            Block::Class => self.layer.classes.is_full(),
            Block::Style => self.class.styles.is_full(),
            Block::Label => self.class.label.is_some(),
            Block::Feature => self.layer.features.is_full(),
            // A mapfile has one MAP, POINTS are limited by their vertices, keys and values add up, and the
            // others are not kept.
            Block::Map
            | Block::Points
            | Block::Web
            | Block::WebMetadata
            | Block::LayerMetadata
            | Block::Validation
            | Block::Projection
            | Block::Skipped
            | Block::SkippedLabel => false,
        }
    }
}
