//! A host in memory: its files, and ports with letters for their events.

ghost use Rattle.std.specs.Prelude.{◌≡◌, IfSome, None, true};
ghost use Rattle.std.specs.Io.Buffered.{reader_inner};

use crate::memory::{Memory, stream_of};
use crate::ports::{LAST, RESPONSE};
use crate::shelf_log::{ShelfLog, log_of};
use console::ListenCause;
use eventloop::{Poller, Wakes};
use httpedge::EdgeFault;
use mapdefs::Text;
use network::{
    AcceptFailed, AddressFault, IntoTransport, Network, NothingLeft, Opens, Port, Sides,
};
use program::{Files, Host, ListenFailed, OpenFault};
use std::alloc::{AllocError, Global};
use std::io::{self, BufReader, Read, Write};
use std::sync::Arc;
use std::sync::atomic::{AtomicU64, Ordering};
use std::time::Duration;
use std::{str, thread};
use streams::Flagged;
use turns::{ReadOutcome, Transport, WriteOutcome};

// The address of the port of clients.
const CLIENTS: &str = "a port";

/// How many connections of clients were answered, and how many were given up because nothing could be read. How many of administrators got the line
/// that nothing is pending, and how often the wait at a port was ended.
#[derive(Drop)]
pub struct Counts {
    /// Connections that were answered.
    pub answered: AtomicU64,
    /// Connections that were given up unread.
    pub unread: AtomicU64,
    /// Connections of administrators.
    pub idle: AtomicU64,
    /// Ends of a wait for an administrator.
    pub woken: AtomicU64,
    /// Ends of a wait for a client.
    pub stopped: AtomicU64,
    /// The sum of the sequences that administrators got.
    pub published: AtomicU64,
    /// How often administrators got the line that a batch isn't kept.
    pub failed: AtomicU64,
    /// How many bytes were added to journals.
    pub kept: AtomicU64,
}

// The bytes that a client gets, and the counts of its end.
#[derive(Drop)]
pub struct Counted {
    memory: Memory<'static>,
    counts: Arc<Counts, Global>,
}

impl Write for Counted {
    fn write(&mut self, bytes: &[u8]) -> io::Result<usize> {
        self.memory.write(bytes)
    }

    fn flush(&mut self) -> io::Result<()> {
        self.memory.flush()
    }
}

// The sequence in the line that a batch is published.
fn published_in(held: &[u8]) -> Option<u64> {
    let line = str::from_utf8(held).ok()?;
    line.strip_prefix("PUBLISHED ")?
        .strip_suffix("\n")?
        .parse()
        .ok()
}

// Counts the end of a connection whose client got these bytes.
fn count_end(counts: &Counts, held: &[u8], fault: Option<EdgeFault>) {
    match fault {
        None if held == RESPONSE => {
            counts.answered.fetch_add(1, Ordering::SeqCst);
        }
        None if held == b"IDLE\n".as_slice() => {
            counts.idle.fetch_add(1, Ordering::SeqCst);
        }
        None if held == b"FAILED\n".as_slice() => {
            counts.failed.fetch_add(1, Ordering::SeqCst);
        }
        Some(EdgeFault::Read { .. }) if held.is_empty() => {
            counts.unread.fetch_add(1, Ordering::SeqCst);
        }
        None => {
            let published = published_in(held).unwrap_or(0);
            counts.published.fetch_add(published, Ordering::SeqCst);
        }
        _ => {}
    }
}

/// A connection on which this is sent.
#[derive(Drop)]
pub struct Call {
    alloc: Global,
    sent: &'static str,
    counts: Arc<Counts, Global>,
}

impl Opens for Call {
    type Reader = Flagged<BufReader<Memory<'static>>>;

    type Writer = Flagged<Counted>;

    type Closed = NothingLeft;

    // The text that is sent is what its reader has.
    ghost opens = { λ call sides. IfSome sides (λ both. (reader_inner both.0.inner).left.now ≡ call.sent.now) };

    ghost closes = { λ _ _ _ _. Unit {0} };

    fn open(
        self,
        alloc: Global,
    ) -> Option<Sides<Flagged<BufReader<Memory<'static>>>, Flagged<Counted>>> {
        let Call { sent, counts, .. } = self;
        let memory = stream_of(alloc, "", 7, None).into_inner();
        let reader = BufReader::new(alloc, stream_of(alloc, sent, 7, None).into_inner()).ok()?;
        Some(Sides {
            reader: Flagged::new(reader),
            writer: Flagged::new(Counted { memory, counts }),
        })
    }

    fn close(
        sides: Sides<Flagged<BufReader<Memory<'static>>>, Flagged<Counted>>,
        fault: Option<EdgeFault>,
    ) -> NothingLeft
        ensures { Unit {0} }
    {
        let Counted { memory, counts } = sides.writer.into_inner();
        count_end(&counts, &memory.held, fault);
        NothingLeft
    }
}

/// A connection on which something is sent, by calls that never wait.
#[derive(Drop)]
pub struct Client {
    sent: Memory<'static>,
    got: Memory<'static>,
    counts: Arc<Counts, Global>,
}

impl Transport for Client {
    ghost delivered = { λ _. None };

    ghost accepted = { λ _. None };

    ghost reads = { λ _ _ _. Unit {0} };

    ghost writes = { λ _ _ _. Unit {0} };

    ghost shuts = { λ _ _. Unit {0} };

    // A connection of which nothing can be read is counted.
    fn read(&mut self, room: &mut [u8]) -> ReadOutcome {
        match self.sent.read(room) {
            Ok(0) => ReadOutcome::End,
            Ok(count) => ReadOutcome::Bytes(count),
            Err(_) => {
                let fault = EdgeFault::Read { written: 0 };
                count_end(&self.counts, &self.got.held, Some(fault));
                ReadOutcome::Failed
            }
        }
    }

    fn write(&mut self, first: &[u8], second: &[u8]) -> WriteOutcome {
        let bytes = if first.is_empty() { second } else { first };
        match self.got.write(bytes) {
            Ok(count) if count > 0 => WriteOutcome::Bytes(count),
            _ => WriteOutcome::Failed,
        }
    }

    // One that has its last answer is counted.
    fn shut_down(&mut self) {
        count_end(&self.counts, &self.got.held, None);
    }
}

impl IntoTransport<Client> for Call {
    fn into_transport(self) -> Option<Client> {
        let Call {
            alloc,
            sent,
            counts,
        } = self;
        Some(Client {
            sent: stream_of(alloc, sent, 7, None).into_inner(),
            got: stream_of(alloc, "", 7, None).into_inner(),
            counts,
        })
    }
}

/// A poller of connections whose calls never have to wait: there is nothing to report.
#[derive(Drop)]
pub struct Idle {
    rt: HostRuntime,
}

/// The waker of its wait, of a millisecond.
#[derive(Drop)]
pub struct NoWaker;

impl Wakes for NoWaker {
    fn wake(&self) {}
}

impl Poller<Client> for Idle {
    ghost reported = { λ _ _ _. Unit {0} };

    type Waker = NoWaker;

    fn waker(&self) -> Option<NoWaker> {
        Some(NoWaker)
    }

    fn register(&mut self, _transport: &mut Client, _slot: usize) -> bool {
        true
    }

    fn wait(&mut self, at_most: Duration, _room: &mut [usize]) -> usize {
        if !at_most.is_zero() {
            thread::sleep(&self.rt, Duration::from_millis(1));
        }
        0
    }
}

/// The waker of a wait at the port of an address, which is counted.
#[derive(Drop)]
pub struct Waker {
    address: &'static str,
    counts: Arc<Counts, Global>,
}

// The count of the port of an address.
fn ends_at<'a>(counts: &'a Counts, address: &str) -> &'a AtomicU64 {
    if address == CLIENTS {
        &counts.stopped
    } else {
        &counts.woken
    }
}

impl Wakes for Waker {
    fn wake(&self) {
        ends_at(&self.counts, self.address).fetch_add(1, Ordering::SeqCst);
    }
}

/// A port with letters for its events. `c` is a connection on which a head is sent, `r` one on which `RETRY` is, `b` one with an empty batch, and `x`
/// one whose reader fails. `w` is a call that waits until the port is woken, for ten seconds at most, and then gives a connection of `RETRY`. Any
/// other letter is a call that fails, as do all calls after the last letter. A port whose letters begin with `-` can't be woken.
#[derive(Drop)]
pub struct Letters {
    rt: HostRuntime,
    /// Its address.
    pub address: &'static str,
    letters: Vec<u8>,
    at: usize,
    counts: Arc<Counts, Global>,
}

impl Letters {
    // Waits until the port is woken, and returns whether it was.
    fn waits(&self) -> bool {
        for _ in 0..10_000 {
            if ends_at(&self.counts, self.address).load(Ordering::SeqCst) > 0 {
                return true;
            }
            thread::sleep(&self.rt, Duration::from_millis(1));
        }
        false
    }

    // A connection on which this is sent.
    fn call(&self, sent: &'static str) -> Result<Call, AcceptFailed> {
        match Arc::try_clone(&self.counts) {
            Ok(counts) => Ok(Call {
                alloc: self.rt.alloc(),
                sent,
                counts,
            }),
            Err(_) => Err(AcceptFailed),
        }
    }
}

impl Port<Call> for Letters {
    ghost log = { λ _. None };

    ghost keeps_reserve = { λ _. true };

    ghost address = { λ _. None };

    fn address(&self, alloc: Global) -> Result<Text, AddressFault> {
        match Text::from_str(alloc, self.address) {
            Ok(text) => Ok(text),
            Err(_) => Err(AddressFault::NoMemory),
        }
    }

    fn keep_reserve(&mut self) {}

    fn accept(&mut self) -> Result<Call, AcceptFailed> {
        let letter = self.letters.get(self.at).copied();
        self.at = self.at.saturating_add(1);
        match letter {
            Some(b'c') => self.call(LAST),
            Some(b'r') => self.call("RETRY\n"),
            Some(b'b') => self.call("BATCH 0\n"),
            Some(b'x') => self.call("!"),
            Some(b'w') if self.waits() => self.call("RETRY\n"),
            _ => Err(AcceptFailed),
        }
    }
}

// The files of a host by their paths.
const FILES: [(&str, &str); 9] = [
    ("a.map", "MAP END\n"),
    ("t.map", "MAP WEB METADATA wms_title two END END END\n"),
    ("b.txt", "QUERY a\n"),
    (
        "s.map",
        "MAP SYMBOL NAME s TYPE PIXMAP\nIMAGE p.ppm END END\n",
    ),
    (
        "maps/s.map",
        "MAP SYMBOL NAME s TYPE PIXMAP\nIMAGE p.ppm END END\n",
    ),
    ("maps/p.ppm", "P6 1 1 255 abc"),
    (
        "maps/n.map",
        "MAP SYMBOL NAME s TYPE PIXMAP IMAGE p.ppm END\nSYMBOL NAME t TYPE PIXMAP\nIMAGE q.ppm END END\n",
    ),
    ("l.map", "MAP\nCONFIG LABELFONT locked.map END\n"),
    (
        "maps/f.map",
        "MAP SYMBOL NAME s TYPE PIXMAP IMAGE /maps END END\n",
    ),
];

/// A host with those files, the folder `maps`, and `locked.map`, which may not be read. Its ports 81 and 82 have these letters; no other can be listened on.
#[derive(Drop)]
pub struct Shelf<'a> {
    /// Its runtime.
    pub rt: HostRuntime,
    /// Its allocator.
    pub alloc: Global,
    /// The letters of port 81.
    pub clients: &'a str,
    /// The letters of port 82.
    pub administration: &'a str,
    /// Its counts.
    pub counts: Arc<Counts, Global>,
}

impl Shelf<'_> {
    // A port with these letters.
    fn port(&self, address: &'static str, letters: &str) -> Result<Letters, AllocError> {
        Ok(Letters {
            rt: self.rt,
            address,
            letters: Vec::from_slice(self.alloc, letters.as_bytes())?,
            at: 0,
            counts: Arc::try_clone(&self.counts)?,
        })
    }
}

impl Network for Shelf<'_> {
    type Transport = Client;

    type Poller = Idle;

    type Connection = Call;

    type Port = Letters;

    type Waker = Waker;

    type Input = Memory<'static>;
}

impl Files for Shelf<'_> {
    type File = Memory<'static>;

    ghost file = { λ _ _. None };

    ghost withholds = { λ _ _ _. Unit {0} };

    fn open(&self, path: &str) -> io::Result<Memory<'static>> {
        for (name, text) in FILES {
            if name == path {
                return Ok(stream_of(self.alloc, text, 7, None).into_inner());
            }
        }
        Err(io::Error::from(match path {
            "locked.map" => io::ErrorKind::PermissionDenied,
            "maps" | "/maps" => io::ErrorKind::IsADirectory,
            _ => io::ErrorKind::NotFound,
        }))
    }

    fn read_on(
        &self,
        _path: &str,
        opened: &mut Memory<'static>,
        room: &mut [u8],
    ) -> io::Result<usize> {
        opened.read(room)
    }
}

// The error that a port can't be listened on.
fn refused<P>(cause: ListenCause) -> Result<P, ListenFailed> {
    Err(ListenFailed { cause })
}

impl Host for Shelf<'_> {
    type Log = ShelfLog;

    ghost journal = { λ _ _ _. Unit {0} };

    ghost unopened = { λ _ _ _. Unit {0} };

    ghost listens = { λ _ _ _. Unit {0} };

    ghost refuses = { λ _ _ _. Unit {0} };

    fn listen(&self, number: u16) -> Result<Letters, ListenFailed> {
        let port = match number {
            81 => self.port(CLIENTS, self.clients),
            82 => self.port("another port", self.administration),
            80 => return refused(ListenCause::NotAllowed),
            8081 => return refused(ListenCause::Other),
            _ => return refused(ListenCause::Taken),
        };
        match port {
            Ok(port) => Ok(port),
            Err(_) => refused(ListenCause::Other),
        }
    }

    fn open_log(&self, path: &str, bytes: &[u8]) -> Result<ShelfLog, OpenFault> {
        log_of(self.alloc, &self.counts, path, bytes)
    }

    fn waker(&self, port: &Letters) -> Option<Waker> {
        if port.letters.first() == Some(&b'-') {
            return None;
        }
        match Arc::try_clone(&port.counts) {
            Ok(counts) => Some(Waker {
                address: port.address,
                counts,
            }),
            Err(_) => None,
        }
    }

    fn poller(&self) -> Option<Idle> {
        Some(Idle { rt: self.rt })
    }

    // An input that has ended.
    fn input(&self) -> io::Result<Memory<'static>> {
        Ok(stream_of(self.alloc, "", 7, None).into_inner())
    }
}

/// None yet.
pub fn no_counts(alloc: Global) -> Result<Arc<Counts, Global>, AllocError> {
    let counts = Counts {
        answered: AtomicU64::new(0),
        unread: AtomicU64::new(0),
        idle: AtomicU64::new(0),
        woken: AtomicU64::new(0),
        stopped: AtomicU64::new(0),
        published: AtomicU64::new(0),
        failed: AtomicU64::new(0),
        kept: AtomicU64::new(0),
    };
    Ok(Arc::new(alloc, counts)?)
}
