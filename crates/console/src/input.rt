ghost use Rattle.std.specs.Prelude.{◌≡◌, ◌||◌, OnOk, IfOk, MatchResult};
ghost use Rattle.std.specs.Io.KnownBytes.{Consumes, IsAtEnd};
ghost use Rattle.console.specs.Reading.{is_input};

use std::alloc::{AllocError, Global};
use streams::Source;
use thiserror::Error;

// How many bytes are read at once, at most.
const CHUNK: usize = 65_536;

/// Why an input was not read to its end.
#[derive(Clone, Copy, Debug, Error)]
pub enum ReadFault {
    /// The reader failed.
    #[error("the reader failed")]
    Input,
    /// Memory was refused.
    #[error("out of memory")]
    NoMemory,
}

/// Reads all of the bytes that are left, up to their end. Its errors are that the reader failed, and that memory was
/// refused.
pub fn read_all<I: Source>(alloc: Global, input: &mut I) -> Result<Vec<u8>, ReadFault>
    ensures bytes { IfOk result (λ bytes. Consumes (I.left input.old) (I.left input.new) bytes.items) }
    ensures end { OnOk result (IsAtEnd (I.left input.new)) }
    ensures flag { MatchResult result
        (λ _. I.take_failed input.new ≡ I.take_failed input.old)
        (λ fault. I.take_failed input.new ≡ (is_input fault || I.take_failed input.old)) }
{
    let mut bytes = Vec::new(alloc);
    let mut room = [0; CHUNK];
    loop {
        let count = match input.take(&mut room) {
            Ok(count) => count,
            Err(_) => return Err(ReadFault::Input),
        };
        if count == 0 {
            return Ok(bytes);
        }
        if bytes.extend_from_slice(&room[..count]).is_err() {
            return Err(ReadFault::NoMemory);
        }
    }
}
