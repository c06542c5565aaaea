//! The messages on why a journal failed, or isn't compacted.

ghost use Rattle.std.specs.Prelude.{◌≡◌, IfOk, string_bytes};
ghost use Rattle.program.specs.Causes.{fault_of_cause, uncompacted_line, uncompacted_message};

use crate::host::OpenFault;
use keepers::LogCause;
use std::alloc::{AllocError, Global};

/// The fault of a log that failed as it was served.
pub(crate) fn fault_of_cause(cause: Option<LogCause>) -> OpenFault
    ensures { result ≡ fault_of_cause cause }
{
    match cause {
        Some(LogCause::NotAllowed) => OpenFault::NotAllowed,
        Some(LogCause::ReadOnly) => OpenFault::ReadOnly,
        Some(LogCause::Full) => OpenFault::Full,
        Some(LogCause::Replaced) => OpenFault::Replaced,
        Some(LogCause::NoMemory) => OpenFault::NoMemory,
        _ => OpenFault::Failed,
    }
}

// Why a journal isn't compacted.
#[tactic(auto, unfolding(crate::specs::Causes::uncompacted_message))]
fn uncompacted_message(cause: LogCause) -> &'static str
    ensures { result.now ≡ uncompacted_message cause }
{
    match cause {
        LogCause::NotAllowed => "the program may not make or rename files in its folder",
        LogCause::ReadOnly => "its file system is read-only",
        LogCause::Full => "its disk is full",
        LogCause::Replaced => "it was removed or replaced",
        LogCause::Link => "its path is a symbolic link",
        LogCause::NoName => "each name of a new file is taken, up to .new-1000",
        LogCause::InUse => "it is mounted by itself",
        LogCause::NoMemory => "out of memory",
        LogCause::Unread => "a record of it isn't read",
        LogCause::Overtaken => "the map has other batches",
        LogCause::Other => "a new file can't be written or renamed",
    }
}

/// The line that reports why a journal isn't compacted, with its path. The error is that memory was refused.
pub(crate) fn uncompacted_line(
    alloc: Global,
    path: &str,
    cause: LogCause,
) -> Result<String, AllocError>
    ensures { IfOk result (λ line. string_bytes line ≡ uncompacted_line path.now cause) }
{
    let message = uncompacted_message(cause);
    let line = format!(in alloc; "warning journal {path}: it isn't compacted: {message}\n")?;
    Ok(line)
}
