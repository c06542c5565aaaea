ghost use Rattle.std.specs.Prelude.{◌≡◌, IfOk, []};
ghost use Rattle.std.specs.List.{after_first};
ghost use Rattle.httpedge.specs.Connection.{Open, Feeds, Ends, step_of, target_of, is_closing, goes_on, has_begun, settled};
ghost use Rattle.httpedge.specs.Meaning.{is_question_mark};

use crate::Decision;
use crate::received::Received;
use crate::verdict::query_of;
use std::alloc::{AllocError, Global};
use std::marker::Model;

/// The most requests of a connection.
pub const REQUESTS: u32 = 1_000;

/// What a piece led to.
#[derive(Clone, Copy, Debug)]
pub struct Fed {
    /// How many bytes of the piece were taken.
    pub taken: usize,
    /// The decision. Where there is none, further bytes are to be read.
    pub step: Option<Decision>,
}

/// A connection: how many of its heads are done, the bytes that came since, and what they decide.
#[derive(Drop)]
pub struct Conn {
    received: Received,
    done: u32,
}

impl Model for Conn {
    ghost use Rattle.std.specs.Prelude.{◌<◌};
    ghost use Rattle.httpedge.specs.Connection.{Course, progress};
    ghost use Rattle.httpedge.specs.Received.{IsReceived};
    ghost use Rattle.httpedge.specs.declared.conn.TheConstants.{REQUESTS};

    ghost Value = { Course };

    ghost view = { λ conn. record { done = conn.done; progress = progress conn.received } };

    ghost invariant = { λ conn. IsReceived conn.received × (conn.done < REQUESTS) };
}

impl Conn {
    /// A connection to which nothing came. It takes the memory for a head, and no more later.
    pub fn new(alloc: Global) -> Result<Self, AllocError>
        ensures { IfOk result (λ conn. conn ≡ record { done = 0; progress = Open [] }) }
    {
        Ok(Conn {
            received: Received::new(alloc)?,
            done: 0,
        })
    }

    /// Takes bytes of a piece: all, or those up to a decision. Once there is a decision, each call gives it again.
    pub fn feed(&mut self, piece: &[u8]) -> Fed
        ensures feeds { Feeds self.old.progress piece.now result.taken self.new.progress }
        ensures done { self.new.done ≡ self.old.done }
        ensures step { result.step ≡ step_of self.new.progress }
    {
        let taken = self.received.feed(piece);
        Fed {
            taken,
            step: self.received.decision,
        }
    }

    /// Takes the end of the stream. Where nothing came, nothing is decided. Once there is a decision, each call gives
    /// it again.
    pub fn end(&mut self) -> Option<Decision>
        ensures ends { Ends self.old.progress self.new.progress }
        ensures done { self.new.done ≡ self.old.done }
        ensures step { result ≡ step_of self.new.progress }
    {
        self.received.end();
        self.received.decision
    }

    /// Whether bytes of a head came that isn't whole yet.
    pub fn has_begun(&self) -> bool
        ensures { result ≡ has_begun self.now.progress }
    {
        self.received.decision.is_none() && !self.received.bytes.is_empty()
    }

    /// The target of the head that decided, as it was sent. It is empty where nothing is decided, or no head came.
    pub fn target(&self) -> &[u8]
        ensures { result.now ≡ target_of self.now.progress }
    {
        match self.received.decision {
            Some(_) => self.received.target.of(&self.received.bytes),
            None => &[],
        }
    }

    /// The query of that target.
    pub fn query(&self) -> &[u8]
        ensures { result.now ≡ after_first is_question_mark (target_of self.now.progress) }
    {
        query_of(self.target())
    }

    /// Whether there is a decision that ends the connection.
    pub fn closing(&self) -> bool
        ensures { result ≡ is_closing self.now }
    {
        self.received.decision.is_some() && (self.received.closes || self.done + 1 == REQUESTS)
    }

    /// Forgets the head of a decision that doesn't end the connection, and returns whether there was one.
    pub fn next(&mut self) -> bool
        ensures was { result ≡ goes_on self.old }
        ensures forgets { self.new ≡ settled self.old }
    {
        if self.received.decision.is_none() || self.closing() {
            return false;
        }
        self.received.forget();
        self.done += 1;
        true
    }
}
