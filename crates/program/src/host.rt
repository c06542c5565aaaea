ghost use Rattle.std.specs.Prelude.{◌≡◌, ℕ, List, IfErr, IfOk, OnOk};
ghost use Rattle.std.specs.Io.{ReadsAtMost};
ghost use Rattle.std.specs.Io.KnownBytes.{ReadConsumes};
ghost use Rattle.std.specs.IoError.{error_kind};
ghost use Rattle.journalfile.specs.Settled.{GarblesNoRecord};

use console::ListenCause;
use journalfile::{Log, Replaceable};
use network::Network;
use std::io::{self, Read};
use thiserror::Error;

/// A port can't be listened on.
#[derive(Clone, Copy, Debug, Error)]
#[error("the port can't be listened on")]
pub struct ListenFailed {
    /// The cause.
    pub cause: ListenCause,
}

/// Why the log of a journal can't be opened, or failed as it was served.
#[derive(Clone, Copy, Debug, Error)]
pub enum OpenFault {
    /// Another program has it.
    #[error("another program has the log")]
    InUse,
    /// The system doesn't allow the program to read and write it.
    #[error("the log may not be opened")]
    NotAllowed,
    /// Its file system can only be read.
    #[error("the log's file system can only be read")]
    ReadOnly,
    /// There is no room for it on its disk.
    #[error("the log's disk is full")]
    Full,
    /// Its path is a symbolic link to a file that isn't there, as on a disk that isn't mounted.
    #[error("the log is a link to a file that isn't there")]
    NoTarget,
    /// Its folder is missing.
    #[error("the log's folder is missing")]
    NoFolder,
    /// Its path led to no file, and then to one: another program makes it.
    #[error("another program makes the log")]
    Appeared,
    /// Its path led to another file, or to none, as it was served.
    #[error("the log was removed or replaced")]
    Replaced,
    /// The system gives another reason.
    #[error("the log can't be opened")]
    Failed,
    /// Memory was refused.
    #[error("out of memory")]
    NoMemory,
}

/// Opens files by their paths, and reads them.
pub trait Files {
    ghost use Rattle.std.specs.Prelude.{ℕ, List, Option};
    ghost use Rattle.std.specs.declared.io.ErrorKind.{ErrorKind};

    /// A file that was opened.
    type File: Read + Drop;

    // The bytes of the file of a path, where they are known.
    ghost file: { Self → List ℕ → Option (List ℕ) };

    // The file of a path can't be opened, or read on, for this error.
    ghost withholds: { Self → List ℕ → ErrorKind → Type 0 };

    /// Opens the file of a path.
    fn open(&self, path: &str) -> io::Result<Self::File>
        ensures opened { IfOk result (λ f. Self.File.remaining f ≡ file self.now path.now) }
        ensures withheld { IfErr result (λ e. withholds self.now path.now (error_kind e)) };

    /// Reads on in the file of a path, which was opened.
    fn read_on(&self, path: &str, opened: &mut Self::File, room: &mut [u8]) -> io::Result<usize>
        ensures bound { ReadsAtMost result room.new }
        ensures bytes { ReadConsumes (Self.File.remaining opened.old) (Self.File.remaining opened.new) result room.new }
        ensures withheld { IfErr result (λ e. withholds self.now path.now (error_kind e)) };
}

/// The system on which the program runs: its files, its journals, and its ports.
pub trait Host: Files + Network {
    ghost use Rattle.std.specs.Prelude.{ℕ, List};
    ghost use Rattle.console.specs.declared.failure.ListenCause.{ListenCause};
    ghost use Rattle.program.specs.declared.host.OpenFault.{OpenFault};

    /// The log of a journal.
    type Log: Replaceable + Drop;

    // A log is one that the host gives for a path.
    ghost journal: { Self → List ℕ → Self.Log → Type 0 };

    // The host gives no log for a path, for this cause.
    ghost unopened: { Self → List ℕ → OpenFault → Type 0 };

    // A port is one that the host gives for a number.
    ghost listens: { Self → ℕ → Self.Port → Type 0 };

    // The host gives no port for a number, for this cause.
    ghost refuses: { Self → ℕ → ListenCause → Type 0 };

    /// Listens on a port by its number, where 0 is one that is free.
    fn listen(&self, number: u16) -> Result<Self::Port, ListenFailed>
        ensures listens { IfOk result (λ p. listens self.now number p) }
        ensures refuses { IfErr result (λ failed. refuses self.now number failed.cause) };

    /// Opens the log of a path, which no other program has at the same time. Where nothing has that path, a log is made with these bytes: it has all
    /// of them, or doesn't exist. Nothing that has the path is replaced. Digests show which bytes of a reliable log a crash has garbled.
    fn open_log(&self, path: &str, bytes: &[u8]) -> Result<Self::Log, OpenFault>
        ensures given { IfOk result (λ log. journal self.now path.now log) }
        ensures unopened { IfErr result (unopened self.now path.now) }
        ensures recognised { OnOk result (Self.Log.reliable → (name : List ℕ) → GarblesNoRecord Self.Log.garbled name) };

    /// The waker of a wait at a port, if the port knows its address.
    fn waker(&self, port: &Self::Port) -> Option<Self::Waker>;

    /// A poller, which reports to a worker which of its connections may go on, if there is one.
    fn poller(&self) -> Option<Self::Poller>;

    /// The input whose end ends a service, where the service requests that.
    fn input(&self) -> io::Result<Self::Input>;
}
