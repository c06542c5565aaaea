ghost use Rattle.std.specs.Prelude.{◌≡◌, ◌++◌, ℕ, List, [], ◌∷◌, length, IfSome, MatchOption, None};
ghost use Rattle.std.specs.Io.KnownBytes.{Consumes};
ghost use Rattle.administration.specs.Commands.{Submit};
ghost use Rattle.administration.specs.Reading.{HasEnded, HasEndedWithin, HasNoCommand, HasReadCommand, IsHeldOf, IsLineOf};

use crate::line::{ClientLine, MAX_LINE_BYTES, line_of};
use std::alloc::Global;
use streams::Source;

// How many bytes are read at once, at most.
const PIECE_BYTES: usize = 4_096;

/// A command of a client, as far as it is held.
#[derive(Drop)]
pub enum ReadCommand {
    /// To submit a batch of these bytes. There are none where memory was refused for them.
    Batch(Option<Vec<u8>>),
    /// To publish the pending batches.
    Retry,
    /// No command.
    Malformed,
}

// Reads a byte, unless none comes.
fn read_byte<I: Source>(reader: &mut I) -> Option<u8>
    ensures { MatchOption result
        (HasEnded (I.left reader.old) (I.left reader.new) (I.take_failed reader.new) [])
        (λ byte. Consumes (I.left reader.old) (I.left reader.new) (byte ∷ [])) }
{
    let mut room = [0; 1];
    match reader.take(&mut room) {
        Ok(1) => Some(room[0]),
        _ => None,
    }
}

// Reads a line, byte by byte, so that nothing after it is taken.
fn read_line<I: Source>(reader: &mut I) -> Option<ClientLine>
    ensures { MatchOption result
        (HasNoCommand (I.left reader.old) (I.left reader.new) (I.take_failed reader.new))
        (λ line. (bytes : List ℕ) × Consumes (I.left reader.old) (I.left reader.new) bytes × IsLineOf bytes line) }
{
    let mut text = [0; MAX_LINE_BYTES];
    for at in 0..MAX_LINE_BYTES {
        let byte = read_byte(reader)?;
        if byte == b'\n' {
            return Some(line_of(&text[..at]));
        }
        text[at] = byte;
    }
    Some(ClientLine::Malformed)
}

// Adds a piece of a batch to the held bytes, as long as there is memory.
fn hold(held: Option<Vec<u8>>, piece: &[u8]) -> Option<Vec<u8>>
    ensures { MatchOption held (result ≡ None) (λ old. IfSome result (λ new. new.items ≡ old.items ++ piece.now)) }
{
    let mut bytes = held?;
    match bytes.extend_from_slice(piece) {
        Ok(()) => Some(bytes),
        Err(_) => None,
    }
}

// Reads the bytes of a batch. Those that can't be held are read all the same.
fn read_batch<I: Source>(alloc: Global, reader: &mut I, count: usize) -> Option<ReadCommand>
    ensures { MatchOption result
        (HasEndedWithin (I.left reader.old) (I.left reader.new) (I.take_failed reader.new) count)
        (λ asked. (bytes : List ℕ) × Consumes (I.left reader.old) (I.left reader.new) bytes × (length bytes ≡ count) × IsHeldOf (Submit bytes) asked) }
{
    let mut held = Vec::with_capacity(alloc, count).ok();
    let mut room = [0; PIECE_BYTES];
    let mut left = count;
    while left > 0 {
        let got = match reader.take(&mut room[..left.min(PIECE_BYTES)]) {
            Ok(0) | Err(_) => return None,
            Ok(got) => got,
        };
        held = hold(held, &room[..got]);
        left -= got;
    }
    Some(ReadCommand::Batch(held))
}

/// Reads the next command, and nothing after it. There is none where the client ends before it or within it, or the reader
/// fails.
pub(crate) fn read_command<I: Source>(alloc: Global, reader: &mut I) -> Option<ReadCommand>
    ensures { MatchOption result
        (HasNoCommand (I.left reader.old) (I.left reader.new) (I.take_failed reader.new))
        (HasReadCommand (I.left reader.old) (I.left reader.new)) }
{
    match read_line(reader)? {
        ClientLine::Batch(count) => read_batch(alloc, reader, count),
        ClientLine::Retry => Some(ReadCommand::Retry),
        ClientLine::Malformed => Some(ReadCommand::Malformed),
    }
}
