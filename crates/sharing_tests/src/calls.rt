use crate::maps::shown;
use crate::memory::{Coming, Going};
use blocking::{Connection, Streams, serve_connection};
use httpedge::{Asks, EdgeFault, Outcome, respond};
use std::alloc::{AllocError, Global};
use std::collections::VecDeque;
use std::io::{self, Write};
use std::sync::{Arc, OnceLock};
use streams::Flagged;

/// A head without a query, of 30 bytes.
pub const HEAD: &[u8] = b"GET /wms HTTP/1.1\r\nHost: x\r\n\r\n";

/// The answer to it, of 279 bytes, on a connection that goes on.
pub const KEPT: &[u8] = b"HTTP/1.1 200 OK\r\n\
Content-Type: text/xml\r\n\
Content-Length: 215\r\n\
\r\n\
<?xml version=\"1.0\" encoding=\"UTF-8\"?>\n\
<ServiceExceptionReport version=\"1.3.0\" xmlns=\"http://www.opengis.net/ogc\">\n\
<ServiceException code=\"MissingParameterValue\">REQUEST</ServiceException>\n\
</ServiceExceptionReport>\n";

/// How a connection ended: the bytes that its client got, and its fault.
#[derive(Drop)]
pub struct Ended {
    held: Vec<u8>,
    fault: Option<EdgeFault>,
}

// Where the end of a connection is stored.
type EndSlot = Arc<OnceLock<Ended>, Global>;

/// The bytes that a client gets, and where the end of its connection is stored.
#[derive(Drop)]
pub struct Output {
    going: Going,
    slot: EndSlot,
}

impl Write for Output {
    fn write(&mut self, bytes: &[u8]) -> io::Result<usize> {
        self.going.write(bytes)
    }

    fn flush(&mut self) -> io::Result<()> {
        self.going.flush()
    }
}

/// A connection.
#[derive(Drop)]
pub struct Call {
    coming: Coming,
    output: Output,
}

// Stores the end of a connection.
fn close(writer: Flagged<Output>, fault: Option<EdgeFault>) {
    let Output { going, slot } = writer.into_inner();
    let held = going.held;
    let _ = slot.try_set(Ended { held, fault });
}

impl Connection for Call {
    fn serve<A: Asks>(self, alloc: Global, asks: &mut A) {
        let Call { coming, output } = self;
        let mut reader = Flagged::new(coming);
        let mut writer = Flagged::new(output);
        let served = serve_connection(alloc, asks, &mut reader, &mut writer);
        close(writer, served.err());
    }

    fn turn_away(self, _alloc: Global) {
        let mut writer = Flagged::new(self.output);
        let _ = respond(&Outcome::Busy, true, &mut writer);
        close(writer, None);
    }
}

/// Connections that come one after the other, and where their ends are stored.
#[derive(Drop)]
pub struct Calls {
    alloc: Global,
    waiting: VecDeque<Call>,
    slots: Vec<EndSlot>,
}

impl Calls {
    /// None yet.
    pub fn new(alloc: Global) -> Self {
        Calls {
            alloc,
            waiting: VecDeque::new(alloc),
            slots: Vec::new(alloc),
        }
    }

    /// One more, on which these bytes come, so many at once. Its reader may fail after them, and its writer takes so many.
    pub fn add(
        &mut self,
        bytes: &[u8],
        at_once: usize,
        fails: bool,
        room: usize,
    ) -> Result<(), AllocError> {
        let slot = Arc::new(self.alloc, OnceLock::new())?;
        let theirs = Arc::try_clone(&slot)?;
        let output = Output {
            going: Going::new(self.alloc, room),
            slot: theirs,
        };
        let bytes = Vec::from_slice(self.alloc, bytes)?;
        let coming = Coming::new(bytes, at_once, fails);
        self.waiting.push_back(Call { coming, output })?;
        self.slots.push(slot)?;
        Ok(())
    }

    /// How many still wait.
    pub fn waiting(&self) -> usize {
        self.waiting.len()
    }

    /// The end of the connection of a number, counted from 1: `kept` where the client got the answer of the head, or the bytes
    /// that it got else, and the fault.
    pub fn end_of(&self, number: usize) -> Result<String, AllocError> {
        let alloc = self.alloc;
        let slot = self.slots.get(number.wrapping_sub(1));
        let Some(ended) = slot.and_then(|slot| slot.get()) else {
            return String::from_str(alloc, "not served");
        };
        let held = if ended.held.as_slice() == KEPT {
            String::from_str(alloc, "kept")?
        } else {
            shown(alloc, &ended.held)?
        };
        match ended.fault {
            None => Ok(held),
            Some(fault) => format!(in alloc; "{held}, {fault}"),
        }
    }
}

impl Streams<Call> for Calls {
    ghost use Rattle.std.specs.Prelude.{◌≡◌, []};

    ghost ended = { λ c. c.waiting.items ≡ [] };

    fn next(&mut self) -> Option<Call> {
        self.waiting.pop_front()
    }
}
