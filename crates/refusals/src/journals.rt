use crate::marks::{Call, begin, end, play_on};
use crate::reading::plain_machine;
use compaction::LastChanges;
use journal::{JournalName, push_header, push_record};
use journalfile::{
    Journal, Log, NotCompacted, PutFault, RecoverFault, Recovered, ReplaceFault, Replaceable,
    recover,
};
use keepers::LogCause;
use std::alloc::{AllocError, Global};
use std::io::{self, Read};

const JOURNAL: JournalName = JournalName {
    fingerprint: [7; 32],
    compaction: None,
};

const BATCH: &[u8] = b"OFF a\n";

/// Bytes in memory with room for some more, so that adding to them takes no memory. Nothing is proved of it.
#[derive(Drop)]
struct Room {
    alloc: Global,
    bytes: Vec<u8>,
}

impl Log for Room {
    ghost use Rattle.std.specs.Prelude.{[]};

    type Failure = LogCause;

    ghost reliable = { ⊥ };

    ghost content = { λ _. [] };

    ghost may_leave = { λ _ _. Unit {0} };

    ghost moment = { λ _. 0 };

    ghost left_since = { λ _ _ _. Unit {0} };

    ghost garbled = { λ _. Unit {0} };

    ghost counts_now = { λ reliable. absurd reliable };

    ghost only_now = { λ reliable. absurd reliable };

    fn read_at(&mut self, offset: usize, room: &mut [u8]) -> Result<usize, LogCause> {
        let mut left = self.bytes.get(offset..).unwrap_or(&[]);
        left.read(room).map_err(|_| LogCause::NoMemory)
    }

    fn append(&mut self, bytes: &[u8]) -> Result<(), LogCause> {
        self.bytes
            .extend_from_slice(bytes)
            .map_err(|_| LogCause::NoMemory)
    }

    fn cut(&mut self, end: usize) -> Result<(), LogCause> {
        self.bytes.truncate(end);
        Ok(())
    }

    fn sync(&mut self) -> Result<(), LogCause> {
        Ok(())
    }
}

impl Replaceable for Room {
    fn beside(&mut self) -> Result<Self, LogCause> {
        match Vec::with_capacity(self.alloc, 4_096) {
            Ok(bytes) => Ok(Room {
                alloc: self.alloc,
                bytes,
            }),
            Err(_) => Err(LogCause::NoMemory),
        }
    }

    fn replace(&mut self, successor: Self) -> Result<(), ReplaceFault<LogCause>> {
        self.bytes = successor.bytes;
        Ok(())
    }

    fn discard(self) {}

    fn report(&self, _why: NotCompacted) {}
}

// A journal of so many batches, and a broken record after them.
fn journal_bytes(alloc: Global, count: u64) -> Result<Vec<u8>, AllocError> {
    let mut bytes = Vec::with_capacity(alloc, 4_096)?;
    push_header(&mut bytes, &JOURNAL)?;
    for number in 0..count {
        push_record(&mut bytes, &JOURNAL, number.saturating_add(1), BATCH)?;
    }
    bytes.push(192)?;
    Ok(bytes)
}

/// Opens a journal of two batches.
pub fn recover_row(rt: &HostRuntime) -> io::Result<Option<String>> {
    let alloc = rt.alloc();
    let mut machine = plain_machine(alloc)?;
    let mut log = Room {
        alloc,
        bytes: journal_bytes(alloc, 2)?,
    };
    begin(rt)?;
    let answer = recover(alloc, &JOURNAL, &mut log, &mut machine);
    end(rt)?;
    match answer {
        Ok(Recovered { count, cut, .. }) => {
            Ok(Some(format!(in alloc; "{count} batches, {cut} bytes cut")?))
        }
        Err(RecoverFault::NoMemory) => Ok(None),
        Err(_) => Ok(Some(String::from_str(alloc, "another fault")?)),
    }
}

#[derive(Drop)]
struct Putting {
    journal: Journal<Room>,
    batches: Vec<Vec<u8>>,
}

impl Call for Putting {
    fn state(&self, rt: &HostRuntime) -> io::Result<String> {
        let (count, bytes) = (self.journal.count, self.journal.log.bytes.len());
        Ok(format!(in rt.alloc(); "{count} batches, {bytes} bytes")?)
    }

    fn call(&mut self, rt: &HostRuntime) -> io::Result<Option<String>> {
        if self.journal.count > 9 || self.batches.len() > 9 {
            return Ok(None);
        }
        begin(rt)?;
        let answer = self.journal.put(self.batches.as_slice());
        end(rt)?;
        match answer {
            Ok(()) => Ok(Some(String::from_str(rt.alloc(), "kept")?)),
            Err(PutFault::NoMemory) => Ok(None),
            Err(PutFault::Failed(_)) => Ok(Some(String::from_str(rt.alloc(), "failed")?)),
        }
    }
}

/// Adds two batches to a journal.
pub fn put_row(rt: &HostRuntime) -> io::Result<()> {
    let alloc = rt.alloc();
    let log = Room {
        alloc,
        bytes: journal_bytes(alloc, 0)?,
    };
    let journal = Journal {
        alloc,
        log,
        name: JOURNAL,
        count: 0,
        length: 0,
    };
    let mut batches = Vec::new(alloc);
    for batch in [BATCH, b"".as_slice()] {
        batches.push(Vec::from_slice(alloc, batch)?)?;
    }
    play_on(rt, &mut Putting { journal, batches })
}

// What is left of a batch: how many commands it has, and the bytes of those that no later one of it undoes.
fn text_of_left(alloc: Global, commands: u64, left: &[u8]) -> Result<String, AllocError> {
    let text = str::from_utf8(left)
        .unwrap_or("?")
        .replace(alloc, '\n', ";")?;
    format!(in alloc; "{commands} commands, left {text}")
}

/// Notes a batch of three commands, of which the first is undone.
pub fn note_row(rt: &HostRuntime) -> io::Result<Option<String>> {
    let alloc = rt.alloc();
    let batch = b"OFF a\nCLEAR p\nON a\n";
    let mut changes = LastChanges::new(alloc);
    begin(rt)?;
    let answer = changes.note(batch);
    end(rt)?;
    if answer.is_err() {
        return Ok(None);
    }
    let mut left = Vec::new(alloc);
    let commands = changes.add_left(0, batch, &mut left)?;
    Ok(Some(text_of_left(alloc, commands, &left)?))
}

/// Adds what is left of a batch of three commands, of which the second is undone.
pub fn left_row(rt: &HostRuntime) -> io::Result<Option<String>> {
    let alloc = rt.alloc();
    let batch = b"CLEAR p\nON a\nOFF a\n";
    let mut changes = LastChanges::new(alloc);
    changes.note(batch)?;
    let mut left = Vec::new(alloc);
    begin(rt)?;
    let answer = changes.add_left(0, batch, &mut left);
    end(rt)?;
    match answer {
        Ok(commands) => Ok(Some(text_of_left(alloc, commands, &left)?)),
        Err(_) => Ok(None),
    }
}

#[derive(Drop)]
struct Compacting {
    journal: Journal<Room>,
}

impl Call for Compacting {
    fn state(&self, rt: &HostRuntime) -> io::Result<String> {
        let (count, skipped) = (self.journal.count, self.journal.name.skipped());
        let bytes = self.journal.log.bytes.len();
        Ok(format!(in rt.alloc(); "{count} batches, {skipped} left out, {bytes} bytes")?)
    }

    fn call(&mut self, rt: &HostRuntime) -> io::Result<Option<String>> {
        begin(rt)?;
        let answer = self.journal.compact();
        end(rt)?;
        match answer {
            Ok(None) => Ok(Some(String::from_str(rt.alloc(), "compacted")?)),
            Ok(Some(_)) => Ok(None),
            Err(_) => Ok(Some(String::from_str(rt.alloc(), "failed")?)),
        }
    }
}

/// Compacts a journal of three batches, each of which undoes the one before it.
pub fn compact_row(rt: &HostRuntime) -> io::Result<()> {
    let alloc = rt.alloc();
    let mut bytes = journal_bytes(alloc, 3)?;
    bytes.pop();
    let journal = Journal {
        alloc,
        length: bytes.len() as u64,
        log: Room { alloc, bytes },
        name: JOURNAL,
        count: 3,
    };
    play_on(rt, &mut Compacting { journal })
}
