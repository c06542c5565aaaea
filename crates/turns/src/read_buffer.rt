ghost use Rattle.std.specs.Prelude.{◌≡◌, ◌≢◌, ℕ, ◌≤◌, ◌==◌, ◌++◌, [], length, drop, IfOk};
ghost use Rattle.std.specs.Io.KnownBytes.{Appends};
ghost use Rattle.turns.specs.declared.outcomes.ReadOutcome.TheVariants.{End, WouldBlock, Bytes};

use crate::{ReadOutcome, Transport};
use std::alloc::{AllocError, Global};
use std::marker::Model;

/// How many bytes are read at once, at most.
pub const READ_BYTES: usize = 4_096;

/// Bytes that were read and aren't taken yet: those after a head that is answered first.
#[derive(Drop)]
pub struct ReadBuffer {
    room: Vec<u8>,
    from: usize,
    to: usize,
}

impl Model for ReadBuffer {
    ghost use Rattle.std.specs.Prelude.{ℕ, List, ◌≤◌, take, drop, length};

    ghost Value = { List ℕ };

    ghost view = { λ b. drop b.from (take b.to b.room.items) };

    ghost invariant = { λ b. (b.from ≤ b.to) × (b.to ≤ length b.room.items) };
}

impl ReadBuffer {
    /// No bytes, with room for one read.
    pub fn new(alloc: Global) -> Result<Self, AllocError>
        ensures { IfOk result (λ buffer. buffer ≡ []) }
    {
        Ok(ReadBuffer {
            room: Vec::from_elem(alloc, 0, READ_BYTES)?,
            from: 0,
            to: 0,
        })
    }

    /// Whether there are none.
    pub fn is_empty(&self) -> bool
        ensures { result ≡ (length self.now == 0) }
    {
        self.from == self.to
    }

    /// The bytes.
    pub fn bytes(&self) -> &[u8]
        ensures { result.now ≡ self.now }
    {
        &self.room[self.from..self.to]
    }

    /// The first so many are taken.
    pub fn consume(&mut self, count: usize)
        requires { count ≤ length self.old }
        ensures { self.new ≡ drop count self.old }
    {
        self.from += count;
    }

    /// Reads once, where there are none.
    pub fn fill<T: Transport>(&mut self, transport: &mut T) -> ReadOutcome
        requires empty { self.old ≡ [] }
        ensures delivered { Appends (T.delivered transport.old) (T.delivered transport.new) self.new }
        ensures accepted { Appends (T.accepted transport.old) (T.accepted transport.new) [] }
        ensures reads { T.reads transport.old result transport.new }
        ensures none { result ≡ End → self.new ≡ [] }
        ensures waits { result ≡ WouldBlock → self.new ≡ [] }
        ensures some { (n : ℕ) → result ≡ Bytes n → self.new ≢ [] }
    {
        self.from = 0;
        self.to = 0;
        let outcome = transport.read(&mut self.room);
        if let ReadOutcome::Bytes(count) = outcome {
            self.to = count;
        }
        outcome
    }
}
