//! Journals in memory, by their paths.

ghost use Rattle.std.specs.Prelude.{[]};

use crate::shelf::Counts;
use journalfile::{Log, NotCompacted, ReplaceFault, Replaceable};
use keepers::LogCause;
use program::OpenFault;
use std::alloc::Global;
use std::io::Read;
use std::sync::Arc;
use std::sync::atomic::Ordering;

/// A log in memory. Whether it is reliable isn't known.
#[derive(Drop)]
pub struct ShelfLog {
    alloc: Global,
    held: Vec<u8>,
    // Why it takes no more, if it doesn't.
    stuck: Option<LogCause>,
    counts: Arc<Counts, Global>,
}

impl Log for ShelfLog {
    type Failure = LogCause;

    ghost reliable = { ⊥ };

    ghost content = { λ _. [] };

    ghost may_leave = { λ _ _. Unit {0} };

    ghost moment = { λ _. 0 };

    ghost left_since = { λ _ _ _. Unit {0} };

    ghost garbled = { λ _. Unit {0} };

    ghost counts_now = { λ reliable. absurd reliable };

    ghost only_now = { λ reliable. absurd reliable };

    fn read_at(&mut self, offset: usize, room: &mut [u8]) -> Result<usize, LogCause> {
        let mut left = self.held.get(offset..).unwrap_or(&[]);
        left.read(room).map_err(|_| LogCause::Other)
    }

    // The appended bytes are counted.
    fn append(&mut self, bytes: &[u8]) -> Result<(), LogCause> {
        if let Some(cause) = self.stuck {
            return Err(cause);
        }
        if self.held.extend_from_slice(bytes).is_err() {
            return Err(LogCause::NoMemory);
        }
        self.counts
            .kept
            .fetch_add(bytes.len() as u64, Ordering::SeqCst);
        Ok(())
    }

    fn cut(&mut self, end: usize) -> Result<(), LogCause> {
        self.held.truncate(end);
        Ok(())
    }

    fn sync(&mut self) -> Result<(), LogCause> {
        Ok(())
    }
}

impl Replaceable for ShelfLog {
    fn beside(&mut self) -> Result<Self, LogCause> {
        match Arc::try_clone(&self.counts) {
            Ok(counts) => Ok(ShelfLog {
                alloc: self.alloc,
                held: Vec::new(self.alloc),
                stuck: self.stuck,
                counts,
            }),
            Err(_) => Err(LogCause::NoMemory),
        }
    }

    fn replace(&mut self, successor: Self) -> Result<(), ReplaceFault<LogCause>> {
        self.held = successor.held;
        Ok(())
    }

    fn discard(self) {}

    fn report(&self, _why: NotCompacted) {}
}

// The journal of `MAP END` and an LF that has no record, in hexadecimal digits: worked out from the rules of the format by another program,
// as the records are.
const EMPTY: &str =
    "4b45534d4f4348204a4f55524e414c20310ada21d5448cab06b0073428c7c16c73f905ee6f9dfec08b8b9291d2598a373f46";

// Its record of number 1, of the empty batch.
const FIRST: &str =
    "c00000000000000001368418a429d203e8314acce9bd5a3fef8c6a603f5d0b7a535f995f766bbfa8bfc0";

// That of number 2.
const SECOND: &str =
    "c00000000000000002b3d651f9d9c81d3624d674c33564274f04161e2b4784365c22ca5f26fa15fb89c0";

// The first bytes of such a record.
const TORN: &str = "c000000000000000024f";

// A record of number 1, of the batch `OFF a` and an LF.
const REFUSED: &str =
    "c000000000000000014f464620610a3900ee67a476174cfa1c912a0c5763d7fc6d72586c47ff348d9e29f777bcc764c0";

// The header of such a journal that was compacted: one batch was left out, and none written with the header.
const COMPACTED: &str =
    "4b45534d4f4348204a4f55524e414c20330a00000000000000010000000000000000da21d5448cab06b0073428c7c16c73f905ee6f9dfec08b8b9291d2598a373f46a7cc0136577ea9a7819677b154d83dd14a308cabe22a6e2893bdbcbddb44b8fc";

// The same with another digest.
const UNSEALED: &str =
    "4b45534d4f4348204a4f55524e414c20330a00000000000000010000000000000000da21d5448cab06b0073428c7c16c73f905ee6f9dfec08b8b9291d2598a373f46a7cc0136577ea9a7819677b154d83dd14a308cabe22a6e2893bdbcbddb44b8fd";

// That of one of which none was left out, and one was written with the header.
const ONE_WRITTEN: &str =
    "4b45534d4f4348204a4f55524e414c20330a00000000000000000000000000000001da21d5448cab06b0073428c7c16c73f905ee6f9dfec08b8b9291d2598a373f4614a86ef5e8f9611532bebeeeadca6633dbf9ed7d2e0ef8a96ff9f7a345447609";

// The header of such a journal that an earlier program compacted.
const EARLIER: &str =
    "4b45534d4f4348204a4f55524e414c20320ada21d5448cab06b0073428c7c16c73f905ee6f9dfec08b8b9291d2598a373f460000000000000001";

// The signature of a journal, and a fingerprint that is all zeros.
const OTHER: &str =
    "4b45534d4f4348204a4f55524e414c20310a0000000000000000000000000000000000000000000000000000000000000000";

// Adds bytes by their digits.
fn add(held: &mut Vec<u8>, alloc: Global, digits: &str) -> bool {
    match hex::decode(alloc, digits) {
        Ok(bytes) => held.extend_from_slice(&bytes).is_ok(),
        Err(_) => false,
    }
}

// Adds the bytes of the journal of a path.
fn add_journal(held: &mut Vec<u8>, alloc: Global, path: &str) -> Result<(), OpenFault> {
    let is_made = match path {
        "kept.journal" => add(held, alloc, EMPTY) && add(held, alloc, FIRST),
        "torn.journal" => {
            add(held, alloc, EMPTY) && add(held, alloc, FIRST) && add(held, alloc, TORN)
        }
        "damaged.journal" => {
            add(held, alloc, EMPTY) && add(held, alloc, "c0ff") && add(held, alloc, SECOND)
        }
        "refused.journal" => add(held, alloc, EMPTY) && add(held, alloc, REFUSED),
        "compacted.journal" => add(held, alloc, COMPACTED),
        "unsealed.journal" => add(held, alloc, UNSEALED),
        "missing.journal" => add(held, alloc, ONE_WRITTEN),
        "earlier.journal" => add(held, alloc, EARLIER),
        "other.journal" => add(held, alloc, OTHER),
        "none.journal" => add(held, alloc, "4b45"),
        _ => return Err(OpenFault::Failed),
    };
    if is_made {
        Ok(())
    } else {
        Err(OpenFault::NoMemory)
    }
}

// Why the log of a path takes no more, if it doesn't.
fn stuck_cause(path: &str) -> Option<LogCause> {
    match path {
        "stuck.journal" => Some(LogCause::Other),
        "filled.journal" => Some(LogCause::Full),
        "moved.journal" => Some(LogCause::Replaced),
        "forbidden.journal" => Some(LogCause::NotAllowed),
        "remounted.journal" => Some(LogCause::ReadOnly),
        _ => None,
    }
}

// The log of a path: that of `fresh.journal` is made with these bytes, and so are those of the paths whose logs take no more.
pub fn log_of(
    alloc: Global,
    counts: &Arc<Counts, Global>,
    path: &str,
    bytes: &[u8],
) -> Result<ShelfLog, OpenFault> {
    let mut held = Vec::new(alloc);
    match path {
        "locked.journal" => return Err(OpenFault::InUse),
        "denied.journal" => return Err(OpenFault::NotAllowed),
        "cd.journal" => return Err(OpenFault::ReadOnly),
        "full.journal" => return Err(OpenFault::Full),
        "link.journal" => return Err(OpenFault::NoTarget),
        "away/a.journal" => return Err(OpenFault::NoFolder),
        "made.journal" => return Err(OpenFault::Appeared),
        "small.journal" => return Err(OpenFault::NoMemory),
        "fresh.journal"
        | "stuck.journal"
        | "filled.journal"
        | "moved.journal"
        | "forbidden.journal"
        | "remounted.journal" => {
            if held.extend_from_slice(bytes).is_err() {
                return Err(OpenFault::NoMemory);
            }
        }
        _ => add_journal(&mut held, alloc, path)?,
    }
    match Arc::try_clone(counts) {
        Ok(counts) => Ok(ShelfLog {
            alloc,
            held,
            stuck: stuck_cause(path),
            counts,
        }),
        Err(_) => Err(OpenFault::NoMemory),
    }
}
