ghost use Rattle.std.specs.Prelude.{◌≡◌, ◌||◌, IfOk, IsErrOf, MatchResult};

use std::alloc::Global;
use thiserror::Error;

/// Why a file can't be read.
#[derive(Clone, Copy, Debug)]
pub enum UnreadCause {
    /// There is no file of that name.
    Missing,
    /// The system doesn't allow it.
    NotAllowed,
    /// Another cause.
    Other,
}

/// Why the bytes of a file aren't had.
#[derive(Clone, Copy, Debug, Error)]
pub enum FileFault {
    /// The file can't be read, for this cause.
    #[error("the file can't be read")]
    Unread(UnreadCause),
    /// Memory was refused.
    #[error("out of memory")]
    NoMemory,
}

/// A file that is read to its end.
pub trait FileReader {
    ghost use Rattle.console.specs.Console.{InputState};
    ghost use Rattle.subcommands.specs.Mapfiles.{HasReadFile};
    ghost use Rattle.subcommands.specs.Unread.{is_unread};
    ghost use Rattle.subcommands.specs.declared.unread.FileFault.TheVariants.{Unread};
    ghost use Rattle.subcommands.specs.declared.unread.UnreadCause.{UnreadCause};

    // The rest of it, where that is known, and whether a read has failed.
    ghost state: { Self → InputState };

    // A read of it may fail for this cause.
    ghost unread_for: { Self → UnreadCause → Type 0 };

    /// All of the bytes that are left, up to their end.
    fn read_rest(&mut self, alloc: Global) -> Result<Vec<u8>, FileFault>
        ensures bytes { IfOk result (λ bytes. HasReadFile (state self.old).left (state self.new).left bytes.items) }
        ensures unread { (cause : UnreadCause) → IsErrOf result (Unread cause) → unread_for self.old cause }
        ensures flag { MatchResult result
            (λ _. (state self.new).failed ≡ (state self.old).failed)
            (λ fault. (state self.new).failed ≡ (is_unread fault || (state self.old).failed)) };
}
