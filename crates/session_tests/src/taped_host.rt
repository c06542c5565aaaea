//! A host whose journal is a log that is proved to be reliable.

ghost use Rattle.std.specs.Prelude.{None};

use crate::memory::Memory;
use crate::shelf::{Call, Client, Idle, Letters, Shelf, Waker};
use network::Network;
use program::{Files, Host, ListenFailed, OpenFault};
use std::alloc::Global;
use std::io;
use std::sync::Arc;
use test_logs::{Recording, Tape};

/// A host with the files and the ports of a shelf. The journal of each path is a tape.
#[derive(Drop)]
pub struct TapedHost<'a> {
    /// The files and the ports.
    pub shelf: Shelf<'a>,
    /// What a crash left of the journal, if there was one.
    pub left: Option<&'a [u8]>,
    /// How many more bytes the tape takes.
    pub room: usize,
    /// Where the moments of the tape are noted.
    pub recording: Arc<Recording, Global>,
}

impl Network for TapedHost<'_> {
    type Transport = Client;

    type Poller = Idle;

    type Connection = Call;

    type Port = Letters;

    type Waker = Waker;

    type Input = Memory<'static>;
}

impl Files for TapedHost<'_> {
    type File = Memory<'static>;

    ghost file = { λ _ _. None };

    ghost withholds = { λ _ _ _. Unit {0} };

    fn open(&self, path: &str) -> io::Result<Memory<'static>> {
        self.shelf.open(path)
    }

    fn read_on(
        &self,
        path: &str,
        opened: &mut Memory<'static>,
        room: &mut [u8],
    ) -> io::Result<usize> {
        self.shelf.read_on(path, opened, room)
    }
}

impl Host for TapedHost<'_> {
    type Log = Tape;

    ghost journal = { λ _ _ _. Unit {0} };

    ghost unopened = { λ _ _ _. Unit {0} };

    ghost listens = { λ _ _ _. Unit {0} };

    ghost refuses = { λ _ _ _. Unit {0} };

    fn listen(&self, number: u16) -> Result<Letters, ListenFailed> {
        self.shelf.listen(number)
    }

    // A tape with what a crash left, or with these bytes.
    fn open_log(&self, _path: &str, bytes: &[u8]) -> Result<Tape, OpenFault> {
        let alloc = self.shelf.alloc;
        let Ok(recording) = Arc::try_clone(&self.recording) else {
            return Err(OpenFault::NoMemory);
        };
        match Vec::from_slice(alloc, self.left.unwrap_or(bytes)) {
            Ok(held) => Ok(Tape::new(alloc, held, self.room).recorded(recording)),
            Err(_) => Err(OpenFault::NoMemory),
        }
    }

    fn waker(&self, port: &Letters) -> Option<Waker> {
        self.shelf.waker(port)
    }

    fn poller(&self) -> Option<Idle> {
        self.shelf.poller()
    }

    fn input(&self) -> io::Result<Memory<'static>> {
        self.shelf.input()
    }
}
