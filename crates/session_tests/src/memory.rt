ghost use Rattle.std.specs.Prelude.{◌≡◌};

use console::{ReadFault, Reads, read_all};
use mapdefs::Items;
use std::alloc::{AllocError, Global};
use std::io::{self, Read, Write};
use streams::Flagged;
use subcommands::{FileFault, FileReader, Folder, LookedFor, UnreadCause};

/// A stream in memory: it gives and takes so many bytes at once, and one of its calls fails.
#[derive(Drop)]
pub struct Memory<'a> {
    left: &'a [u8],
    /// The bytes that it has taken.
    pub held: Vec<u8>,
    at_once: usize,
    /// How often it was called.
    pub calls: usize,
    failing: Option<usize>,
}

/// A stream that has a text left, or can't be read where that is `!`. The call of a number fails, counted
/// from 0.
pub fn stream_of(
    alloc: Global,
    text: &str,
    at_once: usize,
    failing: Option<usize>,
) -> Flagged<Memory<'_>>
    ensures left { result.inner.left.now ≡ text.now }
{
    Flagged::new(Memory {
        left: text.as_bytes(),
        held: Vec::new(alloc),
        at_once,
        calls: 0,
        failing: if text == "!" { Some(0) } else { failing },
    })
}

impl Memory<'_> {
    // Counts a call, which fails where it is the one.
    fn call(&mut self) -> io::Result<()> {
        let is_failing = self.failing == Some(self.calls);
        self.calls = self.calls.saturating_add(1);
        if is_failing {
            return Err(io::Error::from(io::ErrorKind::Other));
        }
        Ok(())
    }
}

impl Read for Memory<'_> {
    fn read(&mut self, room: &mut [u8]) -> io::Result<usize> {
        self.call()?;
        let count = self.at_once.min(room.len()).min(self.left.len());
        let (given, left) = self.left.split_at(count);
        room[..count].copy_from_slice(given);
        self.left = left;
        Ok(count)
    }
}

/// A file in memory. Where its stream fails, it may not be read.
#[derive(Drop)]
pub struct MemoryFile<'a> {
    /// Its stream.
    pub stream: Flagged<Memory<'a>>,
}

impl<'a> FileReader for MemoryFile<'a> {
    ghost use Rattle.subcommands.specs.declared.unread.UnreadCause.TheVariants.{NotAllowed};

    ghost state = { λ file. ⟦<Flagged<Memory<'a>> as Reads>⟧.state file.stream };

    ghost unread_for = { λ _ cause. cause ≡ NotAllowed };

    fn read_rest(&mut self, alloc: Global) -> Result<Vec<u8>, FileFault> {
        match read_all(alloc, &mut self.stream) {
            Ok(bytes) => Ok(bytes),
            Err(ReadFault::Input) => Err(FileFault::Unread(UnreadCause::NotAllowed)),
            Err(ReadFault::NoMemory) => Err(FileFault::NoMemory),
        }
    }
}

impl Write for Memory<'_> {
    fn write(&mut self, bytes: &[u8]) -> io::Result<usize> {
        self.call()?;
        let count = self.at_once.min(bytes.len());
        self.held.extend_from_slice(&bytes[..count])?;
        Ok(count)
    }

    fn flush(&mut self) -> io::Result<()> {
        self.call()
    }
}

/// A folder of four files. They are a pixmap of two columns and one row, in the colours 10 20 30 and 255 0 255, one
/// that is no pixmap, a table of one point, and one whose second row has no latitude.
#[derive(Drop)]
pub struct SomeFiles;

impl Folder for SomeFiles {
    ghost gives = { λ _ _ _. Unit {0} };

    fn read(&self, alloc: Global, name: &str) -> Result<Option<Items<u8>>, AllocError> {
        let bytes = match name {
            "p.ppm" => b"P6 2 1 255\n\x0a\x14\x1e\xff\x00\xff".as_slice(),
            "bad.ppm" => b"P5".as_slice(),
            "p.csv" => b"x,y\n1,2\n".as_slice(),
            "bad.csv" => b"x,y\n1,2\n\n3,z\n".as_slice(),
            _ => return Ok(None),
        };
        let mut copy = Vec::new(alloc);
        copy.extend_from_slice(bytes)?;
        Ok(Some(Items::of(copy)))
    }

    // Where a file was looked for isn't known.
    fn look(&self, _alloc: Global, _name: &str) -> Result<Option<LookedFor>, AllocError> {
        Ok(None)
    }
}
