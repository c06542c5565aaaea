ghost use Rattle.std.specs.Prelude.{◌≡◌, ℕ, List, [], ◌∷◌, ◌++◌, IfOk, OnOk};
ghost use Rattle.mapparse.specs.Uses.{uses_of};
ghost use Rattle.subcommands.specs.Folder.{FilesOf, IsParent, parent_before, path_of};

use crate::unread::UnreadCause;
use mapdefs::{Items, Text};
use mapparse::{Files, Mapfile};
use std::alloc::{AllocError, Global};

/// A folder, whose files are read by the names that mapfiles have for them.
pub trait Folder {
    ghost use Rattle.std.specs.Prelude.{ℕ, List, Option, IfOk, IfSome};
    ghost use Rattle.subcommands.specs.Folder.{IsPathOf};

    /// The folder gives these bytes under a name, or none where it has no such file that can be read.
    ghost gives: { Self → List ℕ → Option (List ℕ) → Type 0 };

    /// The bytes of the file of a name. There are none where it can't be read.
    fn read(&self, alloc: Global, name: &str) -> Result<Option<Items<u8>>, AllocError>
        ensures { IfOk result (λ bytes. gives self.now name.now bytes) };

    /// Where the file of a name is looked for, and why it can't be read. There is none where it can be read.
    fn look(&self, alloc: Global, name: &str) -> Result<Option<LookedFor>, AllocError>
        ensures { IfOk result (λ looked. IfSome looked (λ found. IsPathOf name.now found.path)) };
}

/// Where a file was looked for, and why it can't be read.
#[derive(Drop)]
pub struct LookedFor {
    /// The path.
    pub path: Text,
    /// The cause.
    pub cause: UnreadCause,
}

/// The parent of a file in its path: all up to the last slash, or the empty text where there is none.
pub fn parent_of(path: &str) -> &str
    ensures { IsParent path.now result.now }
{
    match path.rfind('/') {
        Some(slash) => path.split_at(slash + 1).0,
        None => "",
    }
}

// The prefix of a name in its path.
fn parent_before<'a>(parent: &'a str, name: &str) -> &'a str
    ensures { result.now ≡ parent_before parent.now name.now }
{
    if name.starts_with('/') { "" } else { parent }
}

/// The path of a name in a folder, by the parent of the folder's files: a name that begins with a slash is a path. The
/// error is that memory was refused.
pub fn path_of(alloc: Global, parent: &str, name: &str) -> Result<Text, AllocError>
    ensures { IfOk result (λ path. path ≡ path_of parent.now name.now) }
{
    let parent = parent_before(parent, name);
    Ok(Text::of(format!(in alloc; "{parent}{name}")?))
}

// Reads a file, and adds it if it can be read.
fn add_file<F: Folder>(
    alloc: Global,
    folder: &F,
    name: Text,
    files: &mut Files,
) -> Result<(), AllocError>
    ensures { OnOk result
        ((names : List (List ℕ)) → FilesOf (F.gives folder.now) names files.old
        → FilesOf (F.gives folder.now) (names ++ name ∷ []) files.new) }
{
    match folder.read(alloc, name.as_str())? {
        Some(bytes) => files.add(name, bytes)?,
        None => {}
    }
    Ok(())
}

// Reads files by their names, in their order.
fn read_files<F: Folder>(alloc: Global, folder: &F, names: Items<Text>) -> Result<Files, AllocError>
    ensures { IfOk result (λ files. FilesOf (F.gives folder.now) names files) }
{
    let mut files = Files::new(alloc);
    for name in names.into_vec() {
        add_file(alloc, folder, name, &mut files)?;
    }
    Ok(files)
}

/// The files of a folder that a mapfile uses. A file that can't be read is left out, so that the mapfile
/// has a fault where it is used.
pub fn files_of<F: Folder>(
    alloc: Global,
    folder: &F,
    mapfile: &Mapfile,
) -> Result<Files, AllocError>
    ensures { IfOk result (λ files. FilesOf (F.gives folder.now) (uses_of mapfile.now) files) }
{
    let names = mapfile.wanted(alloc)?;
    read_files(alloc, folder, names)
}
