ghost use Rattle.std.specs.Prelude.{◌≡◌, option_map};
ghost use Rattle.std.specs.List.{list_all};
ghost use Rattle.mapwords.specs.Font.{is_same_font, is_font_byte, is_font_name, after_labelfont, font_name, font_name_of};

use mapdefs::{Duplicate, Text};
use std::alloc::{AllocError, Global};

/// Which font a CONFIG gives the file of.
#[derive(Drop)]
pub enum FontKey {
    /// That of labels that name none.
    Default,
    /// The one of this name.
    Named(Text),
}

impl FontKey {
    /// Whether both are of one font.
    pub fn is_same(&self, other: &FontKey) -> bool
        ensures { result ≡ is_same_font self.now other.now }
    {
        match (self, other) {
            (FontKey::Default, FontKey::Default) => true,
            (FontKey::Named(name), FontKey::Named(other)) => name.as_str() == other.as_str(),
            _ => false,
        }
    }
}

impl Duplicate for FontKey {
    fn duplicate(&self, alloc: Global) -> Result<FontKey, AllocError> {
        match self {
            FontKey::Default => Ok(FontKey::Default),
            FontKey::Named(name) => Ok(FontKey::Named(name.duplicate(alloc)?)),
        }
    }
}

// Whether a byte may be in the name of a font.
fn is_font_byte(byte: u8) -> bool
    ensures { result ≡ is_font_byte byte }
{
    byte.is_ascii_alphanumeric() || byte == b'-' || byte == b'_'
}

// Whether all bytes may be in the name of a font.
fn has_font_bytes_alone(text: &[u8]) -> bool
    ensures { result ≡ list_all is_font_byte text.now }
{
    text.iter().all(|byte| is_font_byte(*byte))
}

// Whether a text is the name of a font.
fn is_font_name(name: &str) -> bool
    ensures { result ≡ is_font_name name.now }
{
    !name.is_empty() && has_font_bytes_alone(name.as_bytes())
}

/// What a key of CONFIG has after LABELFONT and a space, if it begins so.
pub fn after_labelfont(key: &str) -> Option<&str>
    ensures { option_map (λ x. x.now) result ≡ after_labelfont key.now }
{
    key.strip_prefix("LABELFONT ")
}

/// The text as the name of a font, if it is one.
pub fn font_name(text: &str) -> Option<&str>
    ensures { option_map (λ x. x.now) result ≡ font_name text.now }
{
    if is_font_name(text) { Some(text) } else { None }
}

/// The name of the font that a key of CONFIG is for, if it has one.
pub fn font_name_of(key: &str) -> Option<&str>
    ensures { option_map (λ x. x.now) result ≡ font_name_of key.now }
{
    font_name(after_labelfont(key)?)
}
