use std::alloc::Global;
use std::io::{self, Read, Write};
use std::net::{OpenStream, Shutdown, TcpStream};
use std::sync::Arc;
use std::time::Duration;

/// A stream of the machine that both sides of a connection share, so that a connection takes one descriptor.
#[derive(Drop)]
pub struct SharedStream {
    stream: Arc<TcpStream, Global>,
}

// Tells an administrator that memory for the connection is refused. Where that fails the administrator has gone.
fn say_busy(mut stream: &TcpStream) {
    let _ = stream.write_all(b"BUSY\n");
}

impl SharedStream {
    // Tells an administrator that memory for the connection is refused.
    pub(crate) fn say_busy(&self) {
        say_busy(&self.stream);
    }

    /// The stream twice. Where memory for that is refused, the administrator gets a line that says so.
    pub(crate) fn pair(alloc: Global, stream: TcpStream) -> Option<(Self, Self)> {
        let stream = match Arc::new(alloc, stream) {
            Ok(stream) => stream,
            Err(refused) => {
                say_busy(&refused.value);
                return None;
            }
        };
        match Arc::try_clone(&stream) {
            Ok(other) => Some((SharedStream { stream }, SharedStream { stream: other })),
            Err(_) => {
                say_busy(&stream);
                None
            }
        }
    }
}

impl Read for SharedStream {
    fn read(&mut self, room: &mut [u8]) -> io::Result<usize> {
        let mut stream: &TcpStream = &self.stream;
        stream.read(room)
    }
}

impl Write for SharedStream {
    fn write(&mut self, bytes: &[u8]) -> io::Result<usize> {
        let mut stream: &TcpStream = &self.stream;
        stream.write(bytes)
    }

    fn flush(&mut self) -> io::Result<()> {
        Ok(())
    }
}

impl OpenStream for SharedStream {
    fn shutdown(&self, how: Shutdown) -> io::Result<()> {
        self.stream.shutdown(how)
    }

    fn set_read_timeout(&self, wait: Option<Duration>) -> io::Result<()> {
        self.stream.set_read_timeout(wait)
    }

    fn set_write_timeout(&self, wait: Option<Duration>) -> io::Result<()> {
        self.stream.set_write_timeout(wait)
    }
}
