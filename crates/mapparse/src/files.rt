ghost use Rattle.std.specs.Prelude.{◌≡◌, [], ◌≤◌, option_map, OnOk, OnErr};
ghost use Rattle.std.specs.List.{find};
ghost use Rattle.mapparse.specs.Files.{has_name, with_file, bytes_in};

use mapdefs::{Items, Text};
use std::alloc::{AllocError, Global};
use std::marker::Model;

/// A file: its name, as mapfiles have it, and its bytes.
#[derive(Drop)]
pub struct FileBytes {
    pub name: Text,
    pub bytes: Items<u8>,
}

/// The files that a mapfile may use, each under a name of its own.
#[derive(Drop)]
pub struct Files {
    files: Vec<FileBytes>,
}

impl Model for Files {
    ghost use Rattle.std.specs.Prelude.{List};
    ghost use Rattle.mapparse.specs.declared.files.FileBytes.{FileBytes};

    ghost Value = { List FileBytes };

    ghost view = { λ f. f.files.items };
}

impl Files {
    /// No files. It takes no memory.
    pub fn new(alloc: Global) -> Self
        ensures { result ≡ [] }
    {
        Files {
            files: Vec::new(alloc),
        }
    }

    /// Adds a file. It replaces an earlier one of its name. Where memory is refused nothing changes.
    pub fn add(&mut self, name: Text, bytes: Items<u8>) -> Result<(), AllocError>
        ensures ok { OnOk result (self.new ≡ with_file name bytes self.old) }
        ensures err { OnErr result (self.new ≡ self.old) }
    {
        for index in 0..self.files.len() {
            if self.files[index].name.as_str() == name.as_str() {
                self.files[index].bytes = bytes;
                return Ok(());
            }
        }
        self.files.push(FileBytes { name, bytes })?;
        Ok(())
    }

    /// All of them, in the order in which their names were added.
    pub fn as_slice(&self) -> &[FileBytes]
        ensures { result.now ≡ self.now }
    {
        &self.files
    }

    /// The bytes of the file of a name, if there is one.
    pub fn bytes(&self, name: &str) -> Option<&[u8]>
        ensures { option_map (λ x. x.now) result ≡ bytes_in name.now self.now }
    {
        let file = self.files.iter().find(|file| file.name.as_str() == name)?;
        Some(file.bytes.as_slice())
    }
}
