//! Reading a log frame by frame, in pieces: memory is taken for one piece and one frame, however long the log is.

ghost use Rattle.std.specs.Prelude.{◌≡◌, ◌<◌, ◌≤◌, ◌+◌, ◌^◌, [], ◌∷◌, length, take, drop, IfOk, IfSome, OnOk, IsTrue, IsFalse};
ghost use Rattle.journalfile.specs.Frames.{Ahead, IsAhead, IsPiece, HasAdded, HasTaken, IsRead};

use crate::log::Log;
use journal::first_frame;
use std::alloc::{AllocError, Global};
use std::marker::Model;

// How many bytes are read at a time.
const PIECE: usize = 65_536;

/// Why a log can't be read.
#[derive(Drop)]
pub(crate) enum ReadError<F> {
    // Memory was refused.
    NoMemory,
    // The log failed.
    Failed(F),
}

impl<F: Drop> From<AllocError> for ReadError<F> {
    fn from(_: AllocError) -> Self {
        ReadError::NoMemory
    }
}

// Reads a piece at an offset: none where the log ends there.
fn read_piece<L: Log>(
    alloc: Global,
    log: &mut L,
    offset: usize,
) -> Result<Vec<u8>, ReadError<L::Failure>>
    ensures piece { L.reliable → IfOk result (λ piece. IsPiece (L.content log.old) offset piece.items) }
    ensures read { L.reliable → IsRead L.content L.may_leave L.moment L.left_since log.old log.new }
{
    let mut piece = vec![in alloc; 0; PIECE]?;
    match log.read_at(offset, &mut piece) {
        Ok(count) => {
            piece.truncate(count);
            Ok(piece)
        }
        Err(failure) => Err(ReadError::Failed(failure)),
    }
}

/// The bytes of a log that were read and not yet taken.
#[derive(Drop)]
pub(crate) struct Frames {
    alloc: Global,
    // The bytes that were read last, and how many of them were taken.
    piece: Vec<u8>,
    taken: usize,
    // The offset in the log of the next byte.
    position: usize,
}

impl Model for Frames {
    ghost Value = { Ahead };

    ghost view = { λ f. record { position = f.position; bytes = drop f.taken f.piece.items } };

    ghost invariant = { λ f. (f.taken ≤ length f.piece.items) × (f.position + length (drop f.taken f.piece.items) < 2 ^ 64) };
}

impl Frames {
    /// Nothing was read yet.
    pub(crate) fn new(alloc: Global) -> Self
        ensures { result ≡ record { position = 0; bytes = [] } }
    {
        Frames {
            alloc,
            piece: Vec::new(alloc),
            taken: 0,
            position: 0,
        }
    }

    /// The allocator of what is read.
    pub(crate) fn alloc(&self) -> Global {
        self.alloc
    }

    /// The offset in the log of the next byte.
    pub(crate) fn position(&self) -> usize
        ensures { result ≡ self.now.position }
    {
        self.position
    }

    /// Goes to another offset.
    pub(crate) fn go_to(&mut self, position: usize)
        ensures { self.new ≡ record { position = position; bytes = [] } }
    {
        self.piece.clear();
        self.taken = 0;
        self.position = position;
    }

    // The bytes that were read and not taken.
    fn bytes(&self) -> &[u8]
        ensures value { result.now ≡ self.now.bytes }
        ensures bound { self.now.position + length result.now < 2 ^ 64 }
    {
        &self.piece[self.taken..]
    }

    // Takes so many of them.
    fn take(&mut self, count: usize)
        requires { count ≤ length self.old.bytes }
        ensures taken { self.new ≡ record { position = self.old.position + count; bytes = drop count self.old.bytes } }
        ensures bound { self.new.position < 2 ^ 64 }
    {
        self.taken += count;
        self.position += count;
    }

    // Takes the first of them.
    fn take_byte(&mut self) -> u8
        requires { 0 < length self.old.bytes }
        ensures taken { self.old.bytes ≡ result ∷ self.new.bytes }
        ensures position { self.new.position ≡ self.old.position + 1 }
        ensures bound { self.new.position < 2 ^ 64 }
    {
        let byte = self.bytes()[0];
        self.take(1);
        byte
    }

    // Reads the next piece, if all bytes that were read are taken. It returns whether there are bytes then.
    fn fill<L: Log>(&mut self, log: &mut L) -> Result<bool, ReadError<L::Failure>>
        requires ahead { L.reliable → IsAhead (L.content log.old) self.old }
        ensures position { self.new.position ≡ self.old.position }
        ensures bound { self.new.position + length self.new.bytes < 2 ^ 64 }
        ensures some { IfOk result (λ is_some. IsTrue is_some → 0 < length self.new.bytes) }
        ensures ahead { L.reliable → OnOk result (IsAhead (L.content log.old) self.new) }
        ensures end { L.reliable → IfOk result (λ is_some. IsFalse is_some → drop self.old.position (L.content log.old) ≡ []) }
        ensures read { L.reliable → IsRead L.content L.may_leave L.moment L.left_since log.old log.new }
    {
        if self.taken < self.piece.len() {
            return Ok(true);
        }
        let piece = read_piece(self.alloc, log, self.position)?;
        if piece.len() > usize::MAX - self.position {
            return Err(ReadError::NoMemory);
        }
        self.piece = piece;
        self.taken = 0;
        Ok(!self.piece.is_empty())
    }

    // Takes the bytes up to the next END and adds them to others, with the END taken too, or all where there is no END. It returns
    // whether there is one.
    fn take_up_to_end(&mut self, frame: &mut Vec<u8>) -> Result<bool, AllocError>
        ensures added { IfOk result (HasAdded frame.old.items frame.new.items self.old self.new) }
        ensures bound { self.new.position < 2 ^ 64 }
    {
        match first_frame(self.bytes()) {
            Some((front, _)) => {
                frame.extend_from_slice(front)?;
                let count = front.len() + 1;
                self.take(count);
                Ok(true)
            }
            None => {
                let bytes = self.bytes();
                frame.extend_from_slice(bytes)?;
                let count = bytes.len();
                self.take(count);
                Ok(false)
            }
        }
    }

    /// Takes the next bytes, so many of them or all that are left.
    pub(crate) fn next_bytes<L: Log>(
        &mut self,
        log: &mut L,
        count: usize,
    ) -> Result<Vec<u8>, ReadError<L::Failure>>
        requires ahead { L.reliable → IsAhead (L.content log.old) self.old }
        ensures ahead { L.reliable → OnOk result (IsAhead (L.content log.old) self.new) }
        ensures bytes { L.reliable → IfOk result (λ bytes. bytes.items ≡ take count (drop self.old.position (L.content log.old))) }
        ensures position { IfOk result (λ bytes. self.new.position ≡ self.old.position + length bytes.items) }
        ensures read { L.reliable → IsRead L.content L.may_leave L.moment L.left_since log.old log.new }
    {
        let mut taken = Vec::new(self.alloc);
        for _ in 0..count {
            if !self.fill(log)? {
                return Ok(taken);
            }
            let byte = self.take_byte();
            taken.extend_from_slice(&[byte])?;
        }
        Ok(taken)
    }

    /// The bytes before the next END, which are taken with it: none where no END is left, and then the log is read to its end.
    pub(crate) fn next_frame<L: Log>(
        &mut self,
        log: &mut L,
    ) -> Result<Option<Vec<u8>>, ReadError<L::Failure>>
        requires ahead { L.reliable → IsAhead (L.content log.old) self.old }
        ensures ahead { L.reliable → OnOk result (IsAhead (L.content log.old) self.new) }
        ensures taken { L.reliable → IfOk result (HasTaken (L.content log.old) self.old self.new) }
        ensures position { IfOk result (λ found. IfSome found (λ frame. self.new.position ≡ self.old.position + (length frame.items + 1))) }
        ensures later { OnOk result (self.old.position ≤ self.new.position) }
        ensures bound { self.new.position < 2 ^ 64 }
        ensures read { L.reliable → IsRead L.content L.may_leave L.moment L.left_since log.old log.new }
    {
        let mut frame = Vec::new(self.alloc);
        while self.fill(log)? {
            if self.take_up_to_end(&mut frame)? {
                return Ok(Some(frame));
            }
        }
        Ok(None)
    }
}
