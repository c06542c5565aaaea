use std::alloc::Global;
use std::io::{self, Read, Write};

/// A reader in memory. It gives so many bytes at once, and then it ends, or fails.
#[derive(Drop)]
pub struct Coming {
    bytes: Vec<u8>,
    at: usize,
    at_once: usize,
    fails: bool,
}

impl Coming {
    /// One that gives these bytes.
    pub fn new(bytes: Vec<u8>, at_once: usize, fails: bool) -> Self {
        Coming {
            bytes,
            at: 0,
            at_once,
            fails,
        }
    }

    /// How many bytes are left.
    pub fn left(&self) -> usize {
        self.bytes.len().saturating_sub(self.at)
    }
}

impl Read for Coming {
    fn read(&mut self, room: &mut [u8]) -> io::Result<usize> {
        let left = self.bytes.get(self.at..).unwrap_or(&[]);
        if left.is_empty() && self.fails {
            return Err(io::Error::from(io::ErrorKind::Other));
        }
        let count = self.at_once.min(room.len()).min(left.len());
        room[..count].copy_from_slice(&left[..count]);
        self.at = self.at.saturating_add(count);
        Ok(count)
    }
}

/// A writer in memory, which fails where it holds so many bytes.
#[derive(Drop)]
pub struct Going {
    /// The bytes that it holds.
    pub held: Vec<u8>,
    room: usize,
}

impl Going {
    /// One that holds nothing.
    pub fn new(alloc: Global, room: usize) -> Self {
        Going {
            held: Vec::new(alloc),
            room,
        }
    }
}

impl Write for Going {
    fn write(&mut self, bytes: &[u8]) -> io::Result<usize> {
        let count = self.room.saturating_sub(self.held.len()).min(bytes.len());
        if count == 0 {
            return Err(io::Error::from(io::ErrorKind::Other));
        }
        self.held.extend_from_slice(&bytes[..count])?;
        Ok(count)
    }

    fn flush(&mut self) -> io::Result<()> {
        Ok(())
    }
}
