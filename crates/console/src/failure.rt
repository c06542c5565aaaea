ghost use Rattle.std.specs.Prelude.{◌≡◌, Err};
ghost use Rattle.console.specs.Console.{status_of};

/// Why a port can't be listened on.
#[derive(Clone, Copy, Debug)]
pub enum ListenCause {
    /// Another program listens on it.
    Taken,
    /// The system doesn't allow it.
    NotAllowed,
    /// Another cause.
    Other,
}

/// Why the program ended without having done its command.
#[derive(Clone, Copy, Debug)]
pub enum Failure {
    /// The mapfile has a fault, which was reported.
    MapfileFault,
    /// A mapfile or a script could not be read, and was reported by its name.
    FileFailed,
    /// The arguments are no command, or request help, and the message was written.
    ArgumentsRefused,
    /// The reader of the session failed.
    InputFailed,
    /// The writer of the transcript, or of the map's line, failed.
    OutputFailed,
    /// The port of this number could not be listened on.
    ListenFailed {
        /// The number.
        port: u16,
        /// The cause.
        cause: ListenCause,
    },
    /// A port gave no connection, or a thread could not be started.
    SocketFailed,
    /// The input whose end ends the service could not be read.
    WatchFailed,
    /// The journal is none, is of another map, is damaged or has a batch that isn't accepted, which was reported.
    JournalFault,
    /// The journal could not be opened, read or written, which was reported.
    JournalFailed,
    /// Memory was refused for the arguments, for bytes that were read, for the map, for the buffer of the output, or
    /// for the address of a port.
    NoMemory,
}

impl Failure {
    /// The exit status of the program that ends with this failure. It is 1 where a file is faulty or can't be read, 2 where its
    /// arguments were refused, 3 where a stream, a port or a thread failed, and 4 where memory was refused.
    pub fn status(self) -> u8
        ensures { result ≡ status_of (Err self) }
    {
        match self {
            Failure::MapfileFault | Failure::FileFailed | Failure::JournalFault => 1,
            Failure::ArgumentsRefused => 2,
            Failure::InputFailed
            | Failure::OutputFailed
            | Failure::ListenFailed { .. }
            | Failure::SocketFailed
            | Failure::WatchFailed
            | Failure::JournalFailed => 3,
            Failure::NoMemory => 4,
        }
    }
}
