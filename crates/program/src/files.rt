ghost use Rattle.std.specs.Prelude.{◌≡◌, [], IfErr, false};
ghost use Rattle.std.specs.Io.{ReadsAtMost};
ghost use Rattle.std.specs.Io.KnownBytes.{ReadConsumes};
ghost use Rattle.std.specs.IoError.{error_kind};
ghost use Rattle.subcommands.specs.Folder.{IsParent};
ghost use Rattle.program.specs.Hosts.{IsWithheld, cause_of, left_of, gives_in};

use crate::host::Files;
use mapdefs::Items;
use std::alloc::{AllocError, Global};
use std::io;
use subcommands::{FileFault, FileReader, Folder, LookedFor, UnreadCause, parent_of, path_of};

// How many bytes of a file are read at once, at most.
const CHUNK: usize = 4_096;

/// A file of a host by its path, which the first read opens.
#[derive(Drop)]
pub struct HostFile<'a, H: Files> {
    host: &'a H,
    path: &'a str,
    file: Option<H::File>,
    // A read failed.
    has_failed: bool,
}

impl<'a, H: Files> HostFile<'a, H> {
    /// The file of a path, not opened yet.
    pub fn new(host: &'a H, path: &'a str) -> Self
        ensures left { left_of (H.file host.now path.now) H.File.remaining result.file ≡ H.file host.now path.now }
        ensures host { result.host.now ≡ host.now }
        ensures path { result.path.now ≡ path.now }
    {
        HostFile {
            host,
            path,
            file: None,
            has_failed: false,
        }
    }

    // Reads the next bytes of a file, which is opened first where it isn't open.
    fn read(&mut self, room: &mut [u8]) -> io::Result<usize>
        ensures bound { ReadsAtMost result room.new }
        ensures bytes { ReadConsumes (left_of (H.file self.old.host.now self.old.path.now) H.File.remaining self.old.file)
            (left_of (H.file self.new.host.now self.new.path.now) H.File.remaining self.new.file) result room.new }
        ensures withheld { IfErr result (λ e. H.withholds self.old.host.now self.old.path.now (error_kind e)) }
        ensures same { (self.new.host ≡ self.old.host) × (self.new.path ≡ self.old.path) × (self.new.has_failed ≡ self.old.has_failed) }
    {
        if let Some(file) = &mut self.file {
            return self.host.read_on(self.path, file, room);
        }
        let mut file = self.host.open(self.path)?;
        let count = self.host.read_on(self.path, &mut file, room)?;
        self.file = Some(file);
        Ok(count)
    }
}

impl<H: Files> FileReader for HostFile<'_, H> {
    ghost state = { λ f. record { left = left_of (H.file f.host.now f.path.now) H.File.remaining f.file; failed = f.has_failed } };

    ghost unread_for = { λ f. IsWithheld (H.withholds f.host.now f.path.now) };

    fn read_rest(&mut self, alloc: Global) -> Result<Vec<u8>, FileFault> {
        let mut bytes = Vec::new(alloc);
        let mut room = [0; CHUNK];
        loop {
            let count = match self.read(&mut room) {
                Ok(count) => count,
                Err(error) => {
                    self.has_failed = true;
                    return Err(FileFault::Unread(cause_of(error.kind())));
                }
            };
            if count == 0 {
                return Ok(bytes);
            }
            if bytes.extend_from_slice(&room[..count]).is_err() {
                return Err(FileFault::NoMemory);
            }
        }
    }
}

// Why a file can't be read, by the error of the system.
fn cause_of(kind: io::ErrorKind) -> UnreadCause
    ensures { result ≡ cause_of kind }
{
    match kind {
        io::ErrorKind::NotFound => UnreadCause::Missing,
        io::ErrorKind::PermissionDenied => UnreadCause::NotAllowed,
        _ => UnreadCause::Other,
    }
}

// Why the file of a path can't be read. There is no cause where it can.
fn why_unread<H: Files>(
    alloc: Global,
    host: &H,
    path: &str,
) -> Result<Option<UnreadCause>, AllocError> {
    match HostFile::new(host, path).read_rest(alloc) {
        Ok(_) => Ok(None),
        Err(FileFault::Unread(cause)) => Ok(Some(cause)),
        Err(FileFault::NoMemory) => Err(AllocError),
    }
}

/// A folder of a host.
#[derive(Drop)]
pub struct HostFolder<'a, H> {
    host: &'a H,
    // The prefix of a name that doesn't begin with a slash: empty for the current folder, or a path with its last
    // slash.
    parent: &'a str,
}

impl<'a, H: Files> HostFolder<'a, H> {
    /// The current folder.
    pub fn current(host: &'a H) -> Self
        ensures host { result.host.now ≡ host.now }
        ensures parent { result.parent.now ≡ [] }
    {
        HostFolder { host, parent: "" }
    }

    /// The folder that a file is in, by the file's path.
    pub fn of(host: &'a H, file: &'a str) -> Self
        ensures host { result.host.now ≡ host.now }
        ensures parent { IsParent file.now result.parent.now }
    {
        HostFolder {
            host,
            parent: parent_of(file),
        }
    }
}

impl<H: Files> Folder for HostFolder<'_, H> {
    ghost gives = { λ folder. gives_in (H.file folder.host.now) folder.parent.now };

    fn read(&self, alloc: Global, name: &str) -> Result<Option<Items<u8>>, AllocError> {
        let path = path_of(alloc, self.parent, name)?;
        match HostFile::new(self.host, path.as_str()).read_rest(alloc) {
            Ok(bytes) => Ok(Some(Items::of(bytes))),
            Err(FileFault::Unread(_)) => Ok(None),
            Err(FileFault::NoMemory) => Err(AllocError),
        }
    }

    fn look(&self, alloc: Global, name: &str) -> Result<Option<LookedFor>, AllocError> {
        let path = path_of(alloc, self.parent, name)?;
        match why_unread(alloc, self.host, path.as_str())? {
            Some(cause) => Ok(Some(LookedFor { path, cause })),
            None => Ok(None),
        }
    }
}
