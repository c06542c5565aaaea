//! The file of a journal on the machine that the program runs on.

ghost use Rattle.std.specs.Prelude.{[]};

use crate::causes::uncompacted_line;
use crate::host::OpenFault;
use journalfile::{Log, NotCompacted, ReplaceFault, Replaceable};
use keepers::LogCause;
use std::fs::{self, File, OpenOptions, TryLockError};
use std::io::{self, ErrorKind, Read, Seek, SeekFrom, Write};
use std::os::unix::fs::MetadataExt;
use subcommands::parent_of;

// How many names are tried for a file that is to be a journal.
const NAMES: u32 = 1000;

impl From<io::Error> for OpenFault {
    fn from(error: io::Error) -> Self {
        match error.kind() {
            ErrorKind::OutOfMemory => OpenFault::NoMemory,
            ErrorKind::PermissionDenied => OpenFault::NotAllowed,
            ErrorKind::ReadOnlyFilesystem => OpenFault::ReadOnly,
            ErrorKind::StorageFull | ErrorKind::QuotaExceeded => OpenFault::Full,
            _ => OpenFault::Failed,
        }
    }
}

// Locks a file. Another program that serves the journal holds the lock until it ends.
fn lock(file: &File) -> Result<(), OpenFault> {
    match file.try_lock() {
        Ok(()) => Ok(()),
        Err(TryLockError::WouldBlock) => Err(OpenFault::InUse),
        Err(TryLockError::Error(error)) => Err(OpenFault::from(error)),
    }
}

// Locks a new file, which gets the permissions of another.
fn lock_like(file: &File, other: &File) -> Result<(), LogCause> {
    if file.try_lock().is_err() {
        return Err(LogCause::Other);
    }
    file.set_permissions(other.metadata()?.permissions())?;
    Ok(())
}

// The file of a path, for reading and appending, where there is one.
fn open(rt: &HostRuntime, path: &str) -> io::Result<File> {
    OpenOptions::new().read(true).append(true).open(rt, path)
}

// A new file of a path that nothing has, for reading and appending.
fn open_new(rt: &HostRuntime, path: &str) -> io::Result<File> {
    OpenOptions::new()
        .read(true)
        .append(true)
        .create_new(true)
        .open(rt, path)
}

// Syncs the folder of a new file, which has the file's name.
fn sync_folder(rt: &HostRuntime, path: &str) -> io::Result<()> {
    let folder = match parent_of(path) {
        "" => "./",
        parent => parent,
    };
    fs::open(rt, folder)?.sync_all()
}

// A new file beside a path, and its name, which nothing had before. There is none where each name is taken.
fn open_beside(rt: &HostRuntime, path: &str) -> io::Result<Option<(File, String)>> {
    for number in 1..=NAMES {
        let name = format!(in rt.alloc(); "{path}.new-{number}")?;
        match open_new(rt, name.as_str()) {
            Ok(file) => return Ok(Some((file, name))),
            Err(error) if error.kind() == ErrorKind::AlreadyExists => {}
            Err(error) => return Err(error),
        }
    }
    Ok(None)
}

// Locks a new file, and writes and syncs its bytes.
fn fill(file: &mut File, bytes: &[u8]) -> Result<(), OpenFault> {
    lock(file)?;
    file.write_all(bytes)?;
    file.sync_all()?;
    Ok(())
}

// A file with these bytes at a path that nothing has, on a file system without a second name for a file. It is removed again where it can't be filled.
fn make_in_place(rt: &HostRuntime, path: &str, bytes: &[u8]) -> Result<File, OpenFault> {
    let mut file = open_new(rt, path)?;
    match fill(&mut file, bytes) {
        Ok(()) => Ok(file),
        Err(fault) => {
            let _ = fs::remove_file(rt, path);
            Err(fault)
        }
    }
}

// Gives a file of another name the path too, if nothing has that. It returns whether the file system has second names for files.
fn name_file(rt: &HostRuntime, other: &str, path: &str) -> Result<bool, OpenFault> {
    match fs::hard_link(rt, other, path) {
        Ok(()) => Ok(true),
        Err(error) => match error.kind() {
            ErrorKind::AlreadyExists => Err(OpenFault::InUse),
            ErrorKind::Unsupported | ErrorKind::PermissionDenied => Ok(false),
            _ => Err(OpenFault::from(error)),
        },
    }
}

// The same, where the error says that the folder of the path is missing.
fn open_in_folder(rt: &HostRuntime, path: &str) -> Result<(File, String), OpenFault> {
    match open_beside(rt, path) {
        Ok(Some(opened)) => Ok(opened),
        Ok(None) => Err(OpenFault::Failed),
        Err(error) if error.kind() == ErrorKind::NotFound => Err(OpenFault::NoFolder),
        Err(error) => Err(OpenFault::from(error)),
    }
}

// Makes the file of a path with these bytes: under another name first, so that the path has all of them or no file, and nothing that
// has the path is replaced.
fn make(rt: &HostRuntime, path: &str, bytes: &[u8]) -> Result<File, OpenFault> {
    let (mut file, other) = open_in_folder(rt, path)?;
    let is_named = match fill(&mut file, bytes) {
        Ok(()) => name_file(rt, other.as_str(), path),
        Err(fault) => Err(fault),
    };
    let _ = fs::remove_file(rt, other.as_str());
    if is_named? {
        Ok(file)
    } else {
        make_in_place(rt, path, bytes)
    }
}

// Whether a path leads to this file.
fn leads_to(rt: &HostRuntime, path: &str, file: &File) -> io::Result<bool> {
    let there = fs::metadata(rt, path)?;
    let own = file.metadata()?;
    Ok(there.dev() == own.dev() && there.ino() == own.ino())
}

// The file of a path, locked for this program. Where nothing has the path, it is made with these bytes.
fn open_or_make(rt: &HostRuntime, path: &str, bytes: &[u8]) -> Result<File, OpenFault> {
    match open(rt, path) {
        Ok(file) => {
            lock(&file)?;
            // the server that had it may have compacted it since it was opened here, and given its path to another file
            if leads_to(rt, path, &file)? {
                Ok(file)
            } else {
                Err(OpenFault::InUse)
            }
        }
        Err(error) if error.kind() == ErrorKind::NotFound => {
            match fs::symlink_metadata(rt, path) {
                Ok(found) if found.is_symlink() => Err(OpenFault::NoTarget),
                Ok(_) => Err(OpenFault::Appeared),
                Err(error) if error.kind() == ErrorKind::NotFound => make(rt, path, bytes),
                Err(error) => Err(OpenFault::from(error)),
            }
        }
        Err(error) => Err(OpenFault::from(error)),
    }
}

/// The log of a journal on a file of the machine: it is read at any offset and written at its end. No clause states what a file does, so
/// the log isn't called reliable.
#[derive(Drop)]
pub struct JournalFile {
    rt: HostRuntime,
    path: String,
    file: File,
}

impl JournalFile {
    /// The file of a path, locked for this program. Where nothing has that path, it is made with these bytes.
    pub(crate) fn open(rt: &HostRuntime, path: &str, bytes: &[u8]) -> Result<Self, OpenFault> {
        let Ok(copied) = String::from_str(rt.alloc(), path) else {
            return Err(OpenFault::NoMemory);
        };
        let file = open_or_make(rt, path, bytes)?;
        // the start that made it may have been broken off before it synced the name
        sync_folder(rt, path)?;
        Ok(JournalFile {
            rt: *rt,
            path: copied,
            file,
        })
    }

    // An error where the path doesn't lead to this file, or where that can't be found out. It takes no descriptor.
    fn look_at_path(&self) -> Result<(), LogCause> {
        if leads_to(&self.rt, self.path.as_str(), &self.file)? {
            Ok(())
        } else {
            Err(LogCause::Replaced)
        }
    }

    // Gives the path of this file to another one, which has a path of its own. An error where another file has this one's path, or none.
    fn give_path(&self, other: &File, path: &str) -> Result<(), LogCause> {
        self.look_at_path()?;
        other.sync_all()?;
        fs::rename(&self.rt, path, self.path.as_str())?;
        Ok(())
    }

    // Why no other file has the path, after a failure. A rename over a network may be done and be reported as failed: only the path
    // itself says that nothing was replaced.
    fn fault_of(&self, cause: LogCause) -> ReplaceFault<LogCause> {
        match self.look_at_path() {
            Ok(()) => ReplaceFault::NotReplaced(cause),
            Err(_) => ReplaceFault::Failed(cause),
        }
    }
}

impl Log for JournalFile {
    type Failure = LogCause;

    ghost reliable = { ⊥ };

    ghost content = { λ _. [] };

    ghost may_leave = { λ _ _. Unit {0} };

    ghost moment = { λ _. 0 };

    ghost left_since = { λ _ _ _. Unit {0} };

    ghost garbled = { λ _. Unit {0} };

    ghost counts_now = { λ reliable. absurd reliable };

    ghost only_now = { λ reliable. absurd reliable };

    fn read_at(&mut self, offset: usize, room: &mut [u8]) -> Result<usize, LogCause> {
        self.file.seek(SeekFrom::Start(offset as u64))?;
        Ok(self.file.read(room)?)
    }

    // What is appended to a file that was removed or replaced would be lost with the program.
    fn append(&mut self, bytes: &[u8]) -> Result<(), LogCause> {
        self.look_at_path()?;
        Ok(self.file.write_all(bytes)?)
    }

    fn cut(&mut self, end: usize) -> Result<(), LogCause> {
        Ok(self.file.set_len(end as u64)?)
    }

    fn sync(&mut self) -> Result<(), LogCause> {
        Ok(self.file.sync_data()?)
    }
}

impl Replaceable for JournalFile {
    // A file under a name that nothing had, which is locked before it has the path. A symbolic link would be replaced in place of the
    // file that it leads to.
    fn beside(&mut self) -> Result<Self, LogCause> {
        if fs::symlink_metadata(&self.rt, self.path.as_str())?.is_symlink() {
            return Err(LogCause::Link);
        }
        let Some((file, path)) = open_beside(&self.rt, self.path.as_str())? else {
            return Err(LogCause::NoName);
        };
        match lock_like(&file, &self.file) {
            Ok(()) => Ok(JournalFile {
                rt: self.rt,
                path,
                file,
            }),
            Err(cause) => {
                let _ = fs::remove_file(&self.rt, path.as_str());
                Err(cause)
            }
        }
    }

    // The bytes and the length of the other file are on the disk before it gets the path, and that it has the path is there before
    // anything is added to it.
    fn replace(&mut self, successor: Self) -> Result<(), ReplaceFault<LogCause>> {
        let JournalFile { path, file, .. } = successor;
        if let Err(cause) = self.give_path(&file, path.as_str()) {
            let _ = fs::remove_file(&self.rt, path.as_str());
            return Err(self.fault_of(cause));
        }
        self.file = file;
        match sync_folder(&self.rt, self.path.as_str()) {
            Ok(()) => Ok(()),
            Err(error) => Err(ReplaceFault::Failed(LogCause::from(error))),
        }
    }

    fn discard(self) {
        let _ = fs::remove_file(&self.rt, self.path.as_str());
    }

    // A line on standard error, written at once.
    fn report(&self, why: NotCompacted) {
        let rt = &self.rt;
        if let Ok(line) = uncompacted_line(rt.alloc(), self.path.as_str(), why.cause) {
            let _ = eprint!(rt; "{}", line.as_str());
        }
    }
}
