ghost use Rattle.std.specs.Prelude.{◌≡◌, None};

use crate::closing::hang_up;
use crate::limits::{DRAIN_SECONDS, FAILURE_MILLISECONDS, Waits};
use crate::opening::{NothingLeft, Opens, Sides};
use crate::port::{AcceptFailed, AddressFault, Port};
use crate::ports::IntoTransport;
use crate::shared_stream::SharedStream;
use crate::socket_transport::SocketTransport;
use crate::timed::{AnswerWritten, TimedReader, TimedWriter};
use eventloop::Wakes;
use httpedge::EdgeFault;
use mapdefs::Text;
use std::alloc::{AllocError, Global};
use std::io::BufReader;
use std::net::{SocketAddr, TcpListener, TcpStream};
use std::sync::Arc;
use std::sync::atomic::{AtomicBool, Ordering};
use std::time::Duration;
use std::{io, thread};
use streams::Flagged;

// How often a waker tries to open a connection.
const WAKE_TRIES: u32 = 6_000;

// How many bytes of an administrator are read ahead, at most.
const AHEAD_BYTES: usize = 65_536;

type SocketReader = Flagged<BufReader<TimedReader<SharedStream, HostRuntime>>>;

type SocketWriter = Flagged<TimedWriter<SharedStream, HostRuntime>>;

/// A port of the machine that the program runs on.
#[derive(Drop)]
pub struct SocketPort {
    rt: HostRuntime,
    listener: TcpListener,
    // Its service ends.
    is_ending: Arc<AtomicBool, Global>,
    // It keeps a descriptor in reserve, for a connection that the system has none left for.
    keeps_reserve: bool,
    reserve: Option<TcpListener>,
}

impl SocketPort {
    /// The port of a listener.
    pub fn new(rt: &HostRuntime, listener: TcpListener) -> Result<Self, AllocError> {
        Ok(SocketPort {
            rt: *rt,
            listener,
            is_ending: Arc::new(rt.alloc(), AtomicBool::new(false))?,
            keeps_reserve: false,
            reserve: None,
        })
    }

    /// The waker of a wait at the port, if its address is known.
    pub fn waker(&self) -> Option<SocketWaker> {
        match (self.listener.local_addr(), Arc::try_clone(&self.is_ending)) {
            (Ok(address), Ok(is_ending)) => Some(SocketWaker {
                rt: self.rt,
                address,
                is_ending,
            }),
            _ => None,
        }
    }

    // Takes a descriptor in reserve, where the port keeps one and has none.
    fn take_reserve(&mut self)
        ensures { self.new.keeps_reserve ≡ self.old.keeps_reserve }
    {
        if self.keeps_reserve && self.reserve.is_none() {
            self.reserve = self.listener.try_clone().ok();
        }
    }

    // Waits for a stream.
    fn accept_stream(&mut self) -> io::Result<TcpStream> {
        let (stream, _) = self.listener.accept()?;
        Ok(stream)
    }

    // The connection of a stream.
    fn connection(&self, stream: TcpStream) -> Result<SocketConnection, AcceptFailed> {
        match Arc::try_clone(&self.is_ending) {
            Ok(is_ending) => Ok(SocketConnection {
                rt: self.rt,
                stream,
                is_ending,
            }),
            Err(_) => Err(AcceptFailed),
        }
    }
}

impl Port<SocketConnection> for SocketPort {
    ghost log = { λ _. None };

    ghost keeps_reserve = { λ p. p.keeps_reserve };

    ghost address = { λ _. None };

    fn address(&self, alloc: Global) -> Result<Text, AddressFault> {
        let Ok(address) = self.listener.local_addr() else {
            return Err(AddressFault::Unknown);
        };
        match format!(in alloc; "{address}") {
            Ok(text) => Ok(Text::of(text)),
            Err(_) => Err(AddressFault::NoMemory),
        }
    }

    fn keep_reserve(&mut self) {
        self.keeps_reserve = true;
        self.take_reserve();
    }

    // The system takes a descriptor for the connection before it waits. Where it has none left, the reserve is given up for it.
    fn accept(&mut self) -> Result<SocketConnection, AcceptFailed> {
        self.take_reserve();
        if let Ok(stream) = self.accept_stream() {
            return self.connection(stream);
        }
        if let Some(reserve) = self.reserve.take() {
            drop(reserve);
            if let Ok(stream) = self.accept_stream() {
                return self.connection(stream);
            }
        }
        thread::sleep(&self.rt, Duration::from_millis(FAILURE_MILLISECONDS));
        Err(AcceptFailed)
    }
}

/// Ends a wait at a port of the machine: for a connection, and for a further command of one of its administrators.
#[derive(Drop)]
pub struct SocketWaker {
    rt: HostRuntime,
    address: SocketAddr,
    is_ending: Arc<AtomicBool, Global>,
}

impl Wakes for SocketWaker {
    // Where no descriptor is free, the waker tries again for a minute. Where the connection is refused, no thread waits at
    // the port.
    fn wake(&self) {
        self.is_ending.store(true, Ordering::SeqCst);
        for _ in 0..WAKE_TRIES {
            match TcpStream::connect(&self.rt, self.address) {
                Err(error) if error.kind() != io::ErrorKind::ConnectionRefused => {
                    thread::sleep(&self.rt, Duration::from_millis(FAILURE_MILLISECONDS));
                }
                Ok(_) | Err(_) => return,
            }
        }
    }
}

/// A connection that was accepted.
#[derive(Drop)]
pub struct SocketConnection {
    rt: HostRuntime,
    stream: TcpStream,
    is_ending: Arc<AtomicBool, Global>,
}

impl IntoTransport<SocketTransport> for SocketConnection {
    // Each write is sent at once. Else an answer would wait for the client's acknowledgement of the one before, for as long
    // as the client delays that.
    fn into_transport(self) -> Option<SocketTransport> {
        let SocketConnection { stream, .. } = self;
        stream.set_nodelay(true).ok()?;
        stream.set_nonblocking(true).ok()?;
        Some(SocketTransport::new(mio::net::TcpStream::from_std(stream)))
    }
}

// Ends a connection, with its fault or none. What its client still sends is read for so long.
fn end(sides: Sides<SocketReader, SocketWriter>, fault: Option<EdgeFault>, whole: Duration) {
    let Sides { reader, writer } = sides;
    let (mut reader, mut writer) = (reader.into_inner().into_inner(), writer.into_inner());
    reader.limit(whole);
    hang_up(&mut Flagged::new(reader), &mut writer, fault);
}

impl Opens for SocketConnection {
    type Reader = SocketReader;

    type Writer = SocketWriter;

    type Closed = NothingLeft;

    ghost opens = { λ _ _. Unit {0} };

    ghost closes = { λ _ _ _ _. Unit {0} };

    // The connection is an administrator's: the time of its first command begins. Each write is sent at once.
    fn open(self, alloc: Global) -> Option<Sides<SocketReader, SocketWriter>> {
        let SocketConnection {
            rt,
            stream,
            is_ending,
        } = self;
        let waits = Waits::of_administration();
        stream.set_nodelay(true).ok()?;
        let (read, written) = AnswerWritten::pair(alloc).ok()?;
        let theirs = Arc::try_clone(&is_ending).ok()?;
        let (stream, other) = SharedStream::pair(alloc, stream)?;
        let reader = TimedReader::start(other, rt, waits, read).ok()?;
        let Ok(reader) = BufReader::with_capacity(alloc, AHEAD_BYTES, reader.until(is_ending))
        else {
            stream.say_busy();
            return None;
        };
        Some(Sides {
            reader: Flagged::new(reader),
            writer: Flagged::new(TimedWriter::new(stream, rt, waits, written).until(theirs)),
        })
    }

    fn close(sides: Sides<SocketReader, SocketWriter>, fault: Option<EdgeFault>) -> NothingLeft
        ensures { Unit {0} }
    {
        end(sides, fault, Duration::from_secs(DRAIN_SECONDS));
        NothingLeft
    }
}
