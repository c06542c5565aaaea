//! Why a log isn't read, written or replaced.

use std::io::{self, ErrorKind};

/// Why a call of a log failed, or a journal isn't compacted.
#[derive(Clone, Copy, Debug, PartialEq, Eq)]
pub enum LogCause {
    /// The system doesn't allow it.
    NotAllowed,
    /// The file system can only be read.
    ReadOnly,
    /// There is no room on the disk.
    Full,
    /// The path leads to another file, or to none.
    Replaced,
    /// The path is a symbolic link, which a new file would replace in place of the file that it leads to.
    Link,
    /// Each name is taken that a new file may have.
    NoName,
    /// The system uses the file, as one that is mounted by itself.
    InUse,
    /// Memory was refused.
    NoMemory,
    /// A record that was written isn't read.
    Unread,
    /// The history has other batches: those that were kept can't be shown before the next start.
    Overtaken,
    /// Another cause.
    Other,
}

impl From<io::Error> for LogCause {
    fn from(error: io::Error) -> Self {
        match error.kind() {
            ErrorKind::PermissionDenied => LogCause::NotAllowed,
            ErrorKind::ReadOnlyFilesystem => LogCause::ReadOnly,
            ErrorKind::StorageFull | ErrorKind::QuotaExceeded => LogCause::Full,
            ErrorKind::NotFound | ErrorKind::NotADirectory | ErrorKind::FilesystemLoop => {
                LogCause::Replaced
            }
            ErrorKind::ResourceBusy => LogCause::InUse,
            ErrorKind::OutOfMemory => LogCause::NoMemory,
            _ => LogCause::Other,
        }
    }
}
