ghost use Rattle.std.specs.Prelude.{◌≡◌};
ghost use Rattle.network.specs.Sockets.{read_outcome, write_outcome};

use mio::net::TcpStream;
use std::io::{self, ErrorKind, IoSlice, Read};
use std::net::Shutdown;
use turns::{ReadOutcome, Transport, WriteOutcome};

// How often a call is made again that a signal interrupted.
const MAX_TRIES: u32 = 100;

/// A connection of the machine that the program runs on, by calls that never wait.
#[derive(Drop)]
pub struct SocketTransport {
    stream: TcpStream,
}

impl SocketTransport {
    /// The connection of a stream, whose calls don't wait.
    pub(crate) fn new(stream: TcpStream) -> Self {
        SocketTransport { stream }
    }

    /// The stream.
    pub(crate) fn stream(&mut self) -> &mut TcpStream {
        &mut self.stream
    }
}

// What a read came to, by the result of the system; none where it is made again.
fn read_outcome(called: io::Result<usize>) -> Option<ReadOutcome>
    ensures { result ≡ read_outcome called }
{
    match called {
        Ok(0) => Some(ReadOutcome::End),
        Ok(count) => Some(ReadOutcome::Bytes(count)),
        Err(error) => match error.kind() {
            ErrorKind::Interrupted => None,
            ErrorKind::WouldBlock => Some(ReadOutcome::WouldBlock),
            _ => Some(ReadOutcome::Failed),
        },
    }
}

// What a write came to, by the result of the system; none where it is made again.
fn write_outcome(called: io::Result<usize>) -> Option<WriteOutcome>
    ensures { result ≡ write_outcome called }
{
    match called {
        Ok(0) => Some(WriteOutcome::Failed),
        Ok(count) => Some(WriteOutcome::Bytes(count)),
        Err(error) => match error.kind() {
            ErrorKind::Interrupted => None,
            ErrorKind::WouldBlock => Some(WriteOutcome::WouldBlock),
            _ => Some(WriteOutcome::Failed),
        },
    }
}

impl Transport for SocketTransport {
    ghost use Rattle.std.specs.Prelude.{None};

    ghost delivered = { λ _. None };

    ghost accepted = { λ _. None };

    ghost reads = { λ _ _ _. Unit {0} };

    ghost writes = { λ _ _ _. Unit {0} };

    ghost shuts = { λ _ _. Unit {0} };

    fn read(&mut self, room: &mut [u8]) -> ReadOutcome {
        for _ in 0..MAX_TRIES {
            if let Some(outcome) = read_outcome(self.stream.read(room)) {
                return outcome;
            }
        }
        ReadOutcome::Failed
    }

    fn write(&mut self, first: &[u8], second: &[u8]) -> WriteOutcome {
        let parts = [IoSlice::new(first), IoSlice::new(second)];
        for _ in 0..MAX_TRIES {
            if let Some(outcome) = write_outcome(self.stream.write_vectored(&parts)) {
                return outcome;
            }
        }
        WriteOutcome::Failed
    }

    fn shut_down(&mut self) {
        // Where that fails the client has gone.
        let _ = self.stream.shutdown(Shutdown::Write);
    }
}
