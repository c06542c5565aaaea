use answers::Answer;
use eventloop::Wakes;
use httpedge::{Asks, Busy};
use mapdefs::Items;
use operations::Mime;
use std::alloc::{AllocError, Global};
use turns::{
    ConnectionTable, Next, OpenConnection, ReadOutcome, Timeouts, Transport, TurnClock,
    WriteOutcome,
};

/// A client in memory: the bytes that it sends, and those that it got. Each call moves as many bytes as its pace has,
/// in turn, and those after the last as many as the last; where that is 0, the call would wait.
#[derive(Drop)]
pub struct Client {
    incoming: Vec<u8>,
    at: usize,
    ends: bool,
    reading: &'static [usize],
    reads: usize,
    writing: &'static [usize],
    writes: usize,
    /// The bytes that it got.
    pub out: Vec<u8>,
}

impl Client {
    /// A client that sends these bytes, and then waits, or has sent all.
    pub fn new(alloc: Global, sends: &[u8], ends: bool) -> Result<Self, AllocError> {
        Ok(Client {
            incoming: Vec::from_slice(alloc, sends)?,
            at: 0,
            ends,
            reading: &[4_096],
            reads: 0,
            writing: &[1_000_000],
            writes: 0,
            out: Vec::new(alloc),
        })
    }

    /// The same at other paces.
    pub fn paced(self, reading: &'static [usize], writing: &'static [usize]) -> Self {
        let Client {
            incoming,
            at,
            ends,
            reads,
            writes,
            out,
            ..
        } = self;
        Client {
            incoming,
            at,
            ends,
            reading,
            reads,
            writing,
            writes,
            out,
        }
    }
}

// How many bytes a call moves, at most.
fn pace_of(paces: &[usize], call: usize) -> usize {
    let last = paces.len().saturating_sub(1);
    match paces.get(call.min(last)) {
        Some(pace) => *pace,
        None => 0,
    }
}

impl Transport for Client {
    ghost use Rattle.std.specs.Prelude.{None};

    ghost delivered = { λ _. None };

    ghost accepted = { λ _. None };

    ghost reads = { λ _ _ _. Unit {0} };

    ghost writes = { λ _ _ _. Unit {0} };

    ghost shuts = { λ _ _. Unit {0} };

    fn read(&mut self, room: &mut [u8]) -> ReadOutcome {
        let left = self.incoming.len().saturating_sub(self.at);
        let pace = pace_of(self.reading, self.reads);
        self.reads = self.reads.saturating_add(1);
        let count = left.min(pace).min(room.len());
        if count == 0 {
            return if left == 0 && self.ends {
                ReadOutcome::End
            } else {
                ReadOutcome::WouldBlock
            };
        }
        room[..count].copy_from_slice(&self.incoming[self.at..self.at + count]);
        self.at += count;
        ReadOutcome::Bytes(count)
    }

    fn write(&mut self, first: &[u8], second: &[u8]) -> WriteOutcome {
        let pace = pace_of(self.writing, self.writes);
        self.writes = self.writes.saturating_add(1);
        let part = if first.is_empty() { second } else { first };
        let count = part.len().min(pace);
        if count == 0 {
            return WriteOutcome::WouldBlock;
        }
        match self.out.extend_from_slice(&part[..count]) {
            Ok(()) => WriteOutcome::Bytes(count),
            Err(_) => WriteOutcome::Failed,
        }
    }

    // The client may send more.
    fn shut_down(&mut self) {}
}

/// It answers each query with its own bytes, and so many dots.
#[derive(Drop)]
pub struct Echo {
    /// The allocator of bodies.
    pub alloc: Global,
    /// How many dots follow the query.
    pub dots: usize,
}

impl Asks for Echo {
    ghost use Rattle.std.specs.Prelude.{◌≡◌};

    ghost answers = { λ old query said new. new ≡ old };

    fn answer(&mut self, query: &[u8]) -> Result<Answer, Busy> {
        let Ok(mut body) = Vec::from_slice(self.alloc, query) else {
            return Err(Busy);
        };
        let Ok(dots) = Vec::from_elem(self.alloc, b'.', self.dots) else {
            return Err(Busy);
        };
        match body.extend_from_slice(&dots) {
            Ok(()) => Ok(Answer {
                mime: Mime::Plain,
                body: Items::of(body),
            }),
            Err(_) => Err(Busy),
        }
    }
}

/// A clock that stands at a moment.
#[derive(Clone, Copy)]
pub struct ClockAt {
    /// The milliseconds that it shows.
    pub moment: u64,
}

impl TurnClock for ClockAt {
    ghost use Rattle.std.specs.Prelude.{◌≡◌};

    ghost shows = { λ clock moment. moment ≡ clock.moment };

    fn moment(&self) -> u64 {
        self.moment
    }
}

/// The waker of a wait that never has to end early.
#[derive(Drop)]
pub struct NoWaker;

impl Wakes for NoWaker {
    fn wake(&self) {}
}

/// The times of the tests, in milliseconds, which all differ.
pub const TIMEOUTS: Timeouts = Timeouts {
    idle: 200,
    timeout: 3_000,
    grace: 5_000,
    rate: 16,
    drain: 2_000,
    ahead: 0,
};

/// A client comes to the first free slot, if there is one.
pub fn enter(
    table: &mut ConnectionTable<Client>,
    alloc: Global,
    client: Client,
    now: u64,
) -> Result<Option<usize>, AllocError> {
    let Some(slot) = table.free_slot() else {
        return Ok(None);
    };
    let Ok(connection) = OpenConnection::new(alloc, client, now) else {
        return Err(AllocError);
    };
    table.open(slot, connection);
    Ok(Some(slot))
}

/// Serves until no slot has a turn, for so many turns at most, none of which takes a millisecond. With `pushes` a connection that waits
/// for its client to take bytes has a turn again.
pub fn serve_all(
    table: &mut ConnectionTable<Client>,
    asks: &mut Echo,
    now: u64,
    pushes: bool,
) -> u32 {
    let clock = ClockAt { moment: now };
    for turns in 0..5_000 {
        let Some(served) = table.serve_next(asks, now, &clock) else {
            return turns;
        };
        if pushes && served.next == Some(Next::Writable) {
            table.wake(served.slot);
        }
    }
    5_000
}
