use std::alloc::Global;
use std::io::{self, Read, Write};

// A reader and a writer in memory. It gives and takes so many bytes at once, for so many calls, and then
// fails; a write may take none instead. After a failure it goes on for so many calls. A write fails too
// where so many bytes are held.
#[derive(Drop)]
pub(crate) struct Narrow<'a> {
    pub(crate) left: &'a [u8],
    pub(crate) held: Vec<u8>,
    pub(crate) at_once: usize,
    pub(crate) calls: usize,
    pub(crate) fails: bool,
    pub(crate) calls_after: usize,
    pub(crate) room: usize,
}

impl Narrow<'_> {
    // How many bytes the next call moves at most.
    fn most(&mut self) -> io::Result<usize> {
        if self.calls > 0 {
            self.calls -= 1;
            return Ok(self.at_once);
        }
        if self.fails {
            self.calls = self.calls_after;
            return Err(io::Error::from(io::ErrorKind::Other));
        }
        Ok(0)
    }

    // How many further bytes are taken.
    fn room(&self) -> io::Result<usize> {
        let room = self.room.saturating_sub(self.held.len());
        if room == 0 {
            return Err(io::Error::from(io::ErrorKind::Other));
        }
        Ok(room)
    }
}

impl Read for Narrow<'_> {
    fn read(&mut self, room: &mut [u8]) -> io::Result<usize> {
        let count = self.most()?.min(room.len()).min(self.left.len());
        let (given, left) = self.left.split_at(count);
        room[..count].copy_from_slice(given);
        self.left = left;
        Ok(count)
    }
}

impl Write for Narrow<'_> {
    fn write(&mut self, bytes: &[u8]) -> io::Result<usize> {
        let count = self.most()?.min(self.room()?).min(bytes.len());
        self.held.extend_from_slice(&bytes[..count])?;
        Ok(count)
    }

    fn flush(&mut self) -> io::Result<()> {
        self.most()?;
        Ok(())
    }
}

// A reader and a writer that gives these bytes, holds nothing and has room.
pub(crate) fn holding_nothing(
    alloc: Global,
    left: &[u8],
    at_once: usize,
    calls: usize,
) -> Narrow<'_> {
    Narrow {
        left,
        held: Vec::new(alloc),
        at_once,
        calls,
        fails: true,
        calls_after: 0,
        room: usize::MAX,
    }
}

// A reader in memory, which ends each of its pieces where the bytes are cut.
#[derive(Drop)]
pub(crate) struct Cut<'a> {
    pub(crate) bytes: &'a [u8],
    pub(crate) at: usize,
    pub(crate) cuts: [usize; 2],
}

impl Cut<'_> {
    // The end of the next piece.
    fn end(&self) -> usize {
        for cut in self.cuts {
            if cut > self.at {
                return cut.min(self.bytes.len());
            }
        }
        self.bytes.len()
    }
}

impl Read for Cut<'_> {
    fn read(&mut self, room: &mut [u8]) -> io::Result<usize> {
        let piece = self.bytes.get(self.at..self.end()).unwrap_or(&[]);
        let count = piece.len().min(room.len());
        room[..count].copy_from_slice(&piece[..count]);
        self.at = self.at.saturating_add(count);
        Ok(count)
    }
}
