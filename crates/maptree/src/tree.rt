use crate::parts::Parts;
use mapdefs::{
    Geometry, Items, MAX_CLASSES, MAX_FEATURES, MAX_LAYERS, MAX_STYLES, MAX_SYMBOLS, Text,
};
use mapvalues::Values;
use mapwords::{Capped, FontKey, Named};

/// A MAP as it is written.
#[derive(Drop)]
pub struct MapTree {
    /// Its values, and those of its WEB blocks and their METADATA.
    pub values: Values,
    pub symbols: Capped<SymbolTree, MAX_SYMBOLS>,
    pub layers: Capped<LayerTree, MAX_LAYERS>,
    /// The files that it uses, in the order of their uses: those of the symbols, of the layers, and of the fonts, of which each
    /// has one.
    pub files: Items<UsedFile>,
}

/// A file that a MAP uses: of a symbol's pixmap or a layer's table, or of a font.
#[derive(Drop)]
pub struct UsedFile {
    pub file: Named,
    /// Which font it is of, if it is of one.
    pub font: Option<FontKey>,
}

/// A SYMBOL as it is written.
#[derive(Drop)]
pub struct SymbolTree {
    pub name: Named,
    /// The name of the file that its pixmap is in. A disc has none.
    pub image: Option<Named>,
}

/// A LAYER as it is written.
#[derive(Drop)]
pub struct LayerTree {
    pub name: Named,
    pub geometry: Geometry,
    /// The name of the file that its table is in. Only a layer of points has one.
    pub table: Option<Named>,
    pub body: LayerBody,
}

/// What a LAYER says.
#[derive(Drop)]
pub struct LayerBody {
    /// Its values, and those of its METADATA.
    pub values: Values,
    pub classes: Capped<ClassTree, MAX_CLASSES>,
    pub features: Capped<FeatureTree, MAX_FEATURES>,
}

/// A CLASS as it is written.
#[derive(Drop)]
pub struct ClassTree {
    pub values: Values,
    /// The values of each STYLE.
    pub styles: Capped<Values, MAX_STYLES>,
    /// The values of its LABEL.
    pub label: Option<Values>,
}

/// A FEATURE as it is written.
#[derive(Drop)]
pub struct FeatureTree {
    pub parts: Parts,
    pub text: Option<Text>,
    /// The values of its items, with semicolons between them.
    pub items: Option<Text>,
}
