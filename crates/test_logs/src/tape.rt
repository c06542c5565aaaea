//! A log in memory that stops at any byte, as by a crash.

ghost use Rattle.std.specs.Prelude.{◌≡◌, ◌⊎◌, ◌≤◌, true, [], ◌∷◌, ◌++◌, length, min, take, drop, IfOk, OnOk, OnErr};
ghost use Rattle.std.proofs.Common.{inl};
ghost use Rattle.test_logs.specs.Tape.{IsLeft, WasOnce, only_here};

use crate::recording::{Moment, Recording};
use journalfile::{Log, LogFailure, NotCompacted, ReplaceFault, Replaceable};
use keepers::LogCause;
use std::alloc::{AllocError, Global};
use std::sync::Arc;

/// The tape has stopped.
#[derive(Clone, Copy, Debug, PartialEq, Eq)]
pub struct TapeFailed;

impl LogFailure for TapeFailed {
    ghost use Rattle.keepers.specs.declared.cause.LogCause.TheVariants.{Full};

    ghost cause = { λ _. Full };

    // A tape stops where it has no room.
    fn cause(&self) -> LogCause {
        LogCause::Full
    }
}

/// Bytes in memory. A crash leaves those that were there at the last sync, and any prefix of those after them.
#[derive(Drop)]
pub struct Tape {
    alloc: Global,
    bytes: Vec<u8>,
    synced: usize,
    past: Vec<Moment>,
    // How many bytes are still taken. The call that has no room for all of its bytes takes the first of them, and no later call works.
    room: usize,
    has_stopped: bool,
    // No other tape takes its place.
    is_fixed: bool,
    syncs: usize,
    // Where its moments are noted for who has given it away, if they are.
    recording: Option<Arc<Recording, Global>>,
}

impl Tape {
    /// A tape with these bytes, all of them kept, which stops when it has taken so many more.
    pub fn new(alloc: Global, bytes: Vec<u8>, room: usize) -> Self
        ensures { result.bytes.items ≡ bytes.items }
    {
        Tape {
            alloc,
            synced: bytes.len(),
            bytes,
            past: Vec::new(alloc),
            room,
            has_stopped: false,
            is_fixed: false,
            syncs: 0,
            recording: None,
        }
    }

    /// The same tape, whose place no other one takes, as a file that is mounted by itself.
    pub fn fixed(mut self) -> Self
        ensures { result ≡ record self { is_fixed = true } }
    {
        self.is_fixed = true;
        self
    }

    /// The same tape, whose moments are noted in a recording from now on, which outlives it.
    pub fn recorded(mut self, recording: Arc<Recording, Global>) -> Self
        ensures { result.bytes.items ≡ self.bytes.items }
    {
        self.recording = Some(recording);
        self.record();
        self
    }

    // Notes in the recording, if there is one, what it has now. Where memory is refused for that, the moment is left out.
    fn record(&self) {
        if let (Some(recording), Ok(bytes)) = (&self.recording, self.bytes.to_vec(self.alloc)) {
            let synced = self.synced;
            recording.note(self.past.len(), Moment { bytes, synced });
        }
    }

    /// What it had at each moment before this one.
    pub fn past(&self) -> &[Moment] {
        &self.past
    }

    /// The bytes, of which a crash leaves `synced` at least.
    pub fn bytes(&self) -> &[u8] {
        &self.bytes
    }

    /// How many bytes each crash leaves.
    pub fn synced(&self) -> usize {
        self.synced
    }

    /// How many syncs it has done.
    pub fn syncs(&self) -> usize {
        self.syncs
    }
}

impl From<AllocError> for TapeFailed {
    ghost from_gives = { λ _ _. Unit {0} };

    fn from(_: AllocError) -> Self {
        TapeFailed
    }
}

// Notes the present moment.
fn note(
    alloc: Global,
    bytes: &Vec<u8>,
    synced: usize,
    past: &mut Vec<Moment>,
) -> Result<(), AllocError>
    ensures ok { OnOk result ((instant : _) × (instant.bytes.items ≡ bytes.now.items) × (instant.synced ≡ synced) × (past.new.items ≡ past.old.items ++ instant ∷ [])) }
    ensures err { OnErr result (past.new.items ≡ past.old.items) }
{
    let bytes = bytes.to_vec(alloc)?;
    past.push(Moment { bytes, synced })?;
    Ok(())
}

// Bytes, and others after them.
fn longer(alloc: Global, bytes: &Vec<u8>, more: &[u8]) -> Result<Vec<u8>, AllocError>
    ensures { IfOk result (λ longer. longer.items ≡ bytes.now.items ++ more.now) }
{
    let mut longer = bytes.to_vec(alloc)?;
    longer.extend_from_slice(more)?;
    Ok(longer)
}

// Copies the bytes from an offset on into a room, as many as it has room for, and returns how many.
fn copy_from(bytes: &[u8], offset: usize, room: &mut [u8]) -> usize
    ensures count { result ≡ min (length room.old) (length (drop offset bytes.now)) }
    ensures length { length room.new ≡ length room.old }
    ensures copied { take result room.new ≡ take result (drop offset bytes.now) }
{
    let left = &bytes[offset.min(bytes.len())..];
    let count = room.len().min(left.len());
    room[..count].copy_from_slice(&left[..count]);
    count
}

impl Log for Tape {
    type Failure = TapeFailed;

    ghost reliable = { Unit {0} };

    ghost content = { λ m. m.bytes.items };

    ghost may_leave = { λ m c. IsLeft m.bytes.items m.synced c };

    ghost moment = { λ m. length m.past.items };

    ghost left_since = { λ m t c. IsLeft m.bytes.items m.synced c ⊎ WasOnce (drop t m.past.items) c };

    ghost garbled = { λ left. ⊥ };

    ghost counts_now = { λ reliable m t c le now. inl now };

    ghost only_now = { λ reliable m c left. only_here m.past.items m.bytes.items m.synced c left };

    fn read_at(&mut self, offset: usize, room: &mut [u8]) -> Result<usize, TapeFailed> {
        if self.has_stopped {
            return Err(TapeFailed);
        }
        Ok(copy_from(&self.bytes, offset, room))
    }

    fn append(&mut self, bytes: &[u8]) -> Result<(), TapeFailed> {
        if self.has_stopped {
            return Err(TapeFailed);
        }
        let count = bytes.len().min(self.room);
        let longer = longer(self.alloc, &self.bytes, &bytes[..count])?;
        note(self.alloc, &self.bytes, self.synced, &mut self.past)?;
        self.bytes = longer;
        self.room -= count;
        self.record();
        if count < bytes.len() {
            self.has_stopped = true;
            return Err(TapeFailed);
        }
        Ok(())
    }

    fn cut(&mut self, end: usize) -> Result<(), TapeFailed> {
        if self.has_stopped {
            return Err(TapeFailed);
        }
        note(self.alloc, &self.bytes, self.synced, &mut self.past)?;
        self.bytes.truncate(end);
        self.synced = self.synced.min(end);
        self.record();
        Ok(())
    }

    fn sync(&mut self) -> Result<(), TapeFailed> {
        if self.has_stopped {
            return Err(TapeFailed);
        }
        note(self.alloc, &self.bytes, self.synced, &mut self.past)?;
        self.synced = self.bytes.len();
        self.syncs = self.syncs.wrapping_add(1);
        self.record();
        Ok(())
    }
}

// A tape beside another one has the room that is left on that one, which isn't written meanwhile, and what it took is gone once it has the
// place. It has no past of its own there: the moments of the other one are kept, and the last of them is that before the replacement.
impl Replaceable for Tape {
    fn beside(&mut self) -> Result<Self, TapeFailed> {
        if self.has_stopped {
            return Err(TapeFailed);
        }
        Ok(Tape::new(self.alloc, Vec::new(self.alloc), self.room))
    }

    fn replace(&mut self, successor: Self) -> Result<(), ReplaceFault<TapeFailed>> {
        if self.has_stopped {
            return Err(ReplaceFault::Failed(TapeFailed));
        }
        if self.is_fixed {
            return Err(ReplaceFault::NotReplaced(TapeFailed));
        }
        match note(self.alloc, &self.bytes, self.synced, &mut self.past) {
            Ok(()) => {}
            Err(_) => return Err(ReplaceFault::NotReplaced(TapeFailed)),
        }
        let Tape {
            bytes,
            synced,
            room,
            has_stopped,
            ..
        } = successor;
        self.bytes = bytes;
        self.synced = synced;
        self.room = room;
        self.has_stopped = has_stopped;
        self.record();
        Ok(())
    }

    fn discard(self) {}

    fn report(&self, _why: NotCompacted) {}
}
