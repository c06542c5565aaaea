ghost use Rattle.std.specs.Prelude.{◌≡◌, ◌≤◌, length};
ghost use Rattle.batches.specs.declared.fault.TheConstants.{MAX_BATCH};
ghost use Rattle.administration.specs.Commands.{line_of};

use batches::{MAX_BATCH, count_of};

/// The most bytes of a line, with the LF at its end.
pub const MAX_LINE_BYTES: usize = 33;

/// The meaning of a line of a client.
#[derive(Clone, Copy)]
pub enum ClientLine {
    /// A batch of so many bytes follows.
    Batch(usize),
    /// The pending batches are to be published.
    Retry,
    /// It is none of the two.
    Malformed,
}

// The meaning of a line, without the LF at its end.
pub(crate) fn line_of(text: &[u8]) -> ClientLine
    ensures { result ≡ line_of text.now }
{
    if text.starts_with(b"BATCH ") {
        match count_of(&text[6..]) {
            Some(count) if count <= MAX_BATCH as u64 => ClientLine::Batch(count as usize),
            _ => ClientLine::Malformed,
        }
    } else if text == b"RETRY".as_slice() {
        ClientLine::Retry
    } else {
        ClientLine::Malformed
    }
}
