ghost use Rattle.std.specs.Prelude.{◌≡◌, not, filter, OnOk};
ghost use Rattle.std.specs.List.{count_by, list_any};
ghost use Rattle.mapwords.specs.declared.font.FontKey.TheVariants.{Named as FontNamed};
ghost use Rattle.maptree.specs.Data.{is_file_of, is_of_named, is_one_too_many, lacks_room, with_font, with_named_file};

use crate::tree::UsedFile;
use mapdefs::{Duplicate, Items, MAX_FONT_NAMES};
use mapwords::{Block, FontKey, Named};
use std::alloc::{AllocError, Global};
use std::mem;

impl UsedFile {
    // Whether it is the file of this font.
    fn is_file_of(&self, key: &FontKey) -> bool
        ensures { result ≡ is_file_of key.now self.now }
    {
        match &self.font {
            Some(other) => key.is_same(other),
            None => false,
        }
    }

    // Whether it is the file of the font of this name.
    fn is_file_of_name(&self, name: &str) -> bool
        ensures { result ≡ is_file_of (FontNamed name.now) self.now }
    {
        match &self.font {
            Some(FontKey::Named(other)) => name == other.as_str(),
            Some(FontKey::Default) | None => false,
        }
    }

    // Whether it is the file of a font that has a name.
    fn is_of_named(&self) -> bool
        ensures { result ≡ is_of_named self.now }
    {
        match &self.font {
            Some(FontKey::Named(_)) => true,
            Some(FontKey::Default) | None => false,
        }
    }
}

/// Adds the file of a symbol or of a layer to those that are used, if it has one.
pub fn add_file(
    files: &mut Items<UsedFile>,
    file: &Option<Named>,
    alloc: Global,
) -> Result<(), AllocError>
    ensures { OnOk result (files.new ≡ with_named_file file.now files.old) }
{
    match file {
        Some(file) => files.push(UsedFile {
            file: file.duplicate(alloc)?,
            font: None,
        }),
        None => Ok(()),
    }
}

// The files without that of a font.
fn without_font(files: Items<UsedFile>, key: &FontKey) -> Vec<UsedFile>
    ensures { result.items ≡ filter (λ used. not (is_file_of key.now used)) files }
{
    let mut left = files.into_vec();
    left.retain(|used| !used.is_file_of(key));
    left
}

/// Adds the file of a font to those that are used, in place of an earlier one of the same font. After an error the files are
/// of no further use.
pub fn add_font(
    files: &mut Items<UsedFile>,
    key: &FontKey,
    file: &Named,
    alloc: Global,
) -> Result<(), AllocError>
    ensures { OnOk result (files.new ≡ with_font key.now file.now files.old) }
{
    let old = mem::replace(files, Items::new(alloc));
    *files = Items::of(without_font(old, key));
    files.push(UsedFile {
        file: file.duplicate(alloc)?,
        font: Some(key.duplicate(alloc)?),
    })
}

// Whether a font has the name.
fn has_font(files: &[UsedFile], name: &str) -> bool
    ensures { result ≡ list_any (is_file_of (FontNamed name.now)) files.now }
{
    files.iter().any(|used| used.is_file_of_name(name))
}

// How many fonts have names.
fn name_count(files: &[UsedFile]) -> usize
    ensures { result ≡ count_by is_of_named files.now }
{
    files.iter().filter(|used| used.is_of_named()).count()
}

// Whether a name of a font is one more than a map with these files may have.
fn is_one_too_many(files: &[UsedFile], name: &str) -> bool
    ensures { result ≡ is_one_too_many files.now name.now }
{
    !has_font(files, name) && name_count(files) >= MAX_FONT_NAMES
}

/// Whether a block of a map that uses these files has no room for a font of this name. Only MAP has fonts.
pub fn lacks_room(block: Block, files: &[UsedFile], name: &str) -> bool
    ensures { result ≡ lacks_room block files.now name.now }
{
    match block {
        Block::Map => is_one_too_many(files, name),
        _ => false,
    }
}
