//! The notes on a connection.

ghost use Rattle.std.specs.Prelude.{◌≡◌};

use crate::line::{AnswerNote, answer_line};
use std::alloc::Global;
use turns::Answered;

// A response that is being sent: how many bytes it has, how many of them are left, and when the first byte of its request came.
#[derive(Clone, Copy)]
struct Sending {
    bytes: u64,
    left: u64,
    since: u64,
}

/// The notes on a connection: since when a request comes, and the response that is being sent.
#[derive(Drop)]
pub struct Record {
    alloc: Global,
    connection: u64,
    // When the first byte of the request came that isn't answered yet, and when the last read was.
    since: Option<u64>,
    read_at: u64,
    sending: Option<Sending>,
}

impl Record {
    /// Nothing is noted yet of the connection of this number.
    pub fn new(alloc: Global, connection: u64) -> Self
        ensures { result.connection ≡ connection }
    {
        Record {
            alloc,
            connection,
            since: None,
            read_at: 0,
            sending: None,
        }
    }

    /// The number of the connection.
    pub fn connection(&self) -> u64 {
        self.connection
    }

    /// Bytes came, at this millisecond.
    pub fn came(&mut self, now: u64) {
        self.read_at = now;
        if self.since.is_none() {
            self.since = Some(now);
        }
    }

    // A response of so many bytes begins. The bytes of a further request came with the last read: none is made while a whole head
    // stands unanswered.
    fn begin(&mut self, bytes: u64, is_followed: bool) -> Sending {
        let since = self.since.unwrap_or(self.read_at);
        self.since = if is_followed {
            Some(self.read_at)
        } else {
            None
        };
        Sending {
            bytes,
            left: bytes,
            since,
        }
    }

    /// Bytes of a response were sent: so many of those that were left, of which there were `left`. Returns whether all of it was sent:
    /// then its line is due.
    pub fn went(&mut self, is_followed: bool, left: u64, count: usize) -> bool {
        let mut sending = match self.sending {
            Some(sending) => sending,
            None => self.begin(left, is_followed),
        };
        sending.left = sending.left.saturating_sub(count as u64);
        self.sending = Some(sending);
        sending.left == 0
    }

    /// The line on the response that was sent last, at this millisecond. There is none where memory is refused for it.
    pub fn line(&mut self, answered: &Answered<'_>, now: u64) -> Option<Vec<u8>> {
        let sending = self.sending.take()?;
        let note = AnswerNote {
            connection: self.connection,
            target: answered.target,
            status: answered.status,
            bytes: sending.bytes,
            millis: now.saturating_sub(sending.since),
        };
        answer_line(self.alloc, &note).ok()
    }
}
