ghost use Rattle.std.specs.Prelude.{◌≡◌, option_map, IfOk};
ghost use Rattle.std.specs.List.{list_any, position};
ghost use Rattle.mapwords.specs.Font.{is_same_font};
ghost use Rattle.mapwords.specs.declared.font.FontKey.TheVariants.{Default, Named as FontNamed};
ghost use Rattle.mapparse.specs.Fonts.{font_index, font_keys, is_unknown};

use mapdefs::{Items, Text};
use maptree::{FontKey, UsedFile};
use std::alloc::{AllocError, Global};

/// The keys of the fonts among files that are used, in the order of their uses.
pub fn font_keys(files: Vec<UsedFile>, alloc: Global) -> Result<Items<FontKey>, AllocError>
    ensures { IfOk result (λ keys. keys ≡ font_keys files.items) }
{
    let mut keys = Items::new(alloc);
    for used in files {
        let UsedFile { font, .. } = used;
        if let Some(key) = font {
            keys.push(key)?;
        }
    }
    Ok(keys)
}

// Whether a font has the name.
fn has_name(key: &FontKey, name: &str) -> bool
    ensures { result ≡ is_same_font (FontNamed name.now) key.now }
{
    match key {
        FontKey::Named(other) => name == other.as_str(),
        FontKey::Default => false,
    }
}

// Whether a font is that of labels that name none.
fn is_default(key: &FontKey) -> bool
    ensures { result ≡ is_same_font Default key.now }
{
    matches!(key, FontKey::Default)
}

// The index of the font of a name.
fn index_of(name: &str, keys: &[FontKey]) -> Option<usize>
    ensures { result ≡ position (is_same_font (FontNamed name.now)) keys.now }
{
    keys.iter().position(|key| has_name(key, name))
}

// The index of the font of labels that name none.
fn default_index(keys: &[FontKey]) -> Option<usize>
    ensures { result ≡ position (is_same_font Default) keys.now }
{
    keys.iter().position(|key| is_default(key))
}

// Whether one of the fonts has the name.
fn is_known(name: &str, keys: &[FontKey]) -> bool
    ensures { result ≡ list_any (is_same_font (FontNamed name.now)) keys.now }
{
    keys.iter().any(|key| has_name(key, name))
}

/// The index of the font of a label, by what it names, if it names one.
pub fn font_index(named: Option<&Text>, keys: &[FontKey]) -> Option<usize>
    ensures { result ≡ font_index keys.now (option_map (λ x. x.now) named.entry) }
{
    let Some(name) = named else {
        return default_index(keys);
    };
    match index_of(name.as_str(), keys) {
        Some(index) => Some(index),
        None => default_index(keys),
    }
}

/// Whether a label names a font that is none of these.
pub fn is_unknown(named: Option<&Text>, keys: &[FontKey]) -> bool
    ensures { result ≡ is_unknown keys.now (option_map (λ x. x.now) named.entry) }
{
    match named {
        Some(name) => !is_known(name.as_str(), keys),
        None => false,
    }
}
