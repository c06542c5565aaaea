use mapdefs::{Items, SharedItems, Symbol};
use maptree::FontKey;

/// What the blocks of a map may name.
#[derive(Drop)]
pub struct NamedParts {
    /// Its symbols, which styles name.
    pub symbols: SharedItems<Symbol>,
    /// The keys of its fonts, which labels name, in the order of the fonts.
    pub fonts: Items<FontKey>,
}
