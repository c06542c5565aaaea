ghost use Rattle.std.specs.Prelude.{◌≡◌, ◌||◌, ◌≤◌, IsSome, None, true};
ghost use Rattle.network.specs.Closing.{HasDrained};

use httpedge::EdgeFault;
use streams::Source;

/// How many bytes of a client are read and dropped after its answer, at most.
pub const MAX_DRAINED_BYTES: usize = 1_048_576;

// How many bytes are read at once, at most.
const PIECE_BYTES: usize = 65_536;

/// The sending side of a connection, which can be closed without the other side.
pub trait Closing {
    ghost use Rattle.std.specs.Prelude.{Bool};

    // Whether it was closed.
    ghost is_shut: { Self → Bool };

    /// Closes it.
    fn shut(&mut self)
        ensures { is_shut self.new ≡ true };
}

/// Reads and drops what a client still sends, up to its end, up to 1 MiB, or until the reader fails.
pub fn drain<R: Source>(reader: &mut R)
    ensures { HasDrained (R.left reader.old) (R.left reader.new) (R.take_failed reader.new) }
{
    let mut room = [0; PIECE_BYTES];
    let mut left = MAX_DRAINED_BYTES;
    while left > 0 {
        match reader.take(&mut room[..left.min(PIECE_BYTES)]) {
            Ok(0) => return,
            Ok(count) => left -= count,
            Err(_) => return,
        }
    }
}

/// Ends an exchange, with its fault or none. After an answer it closes the sending side, so that the client sees the end,
/// and reads what the client still sends. With unread bytes the system would drop answers that the client hasn't read yet.
/// After a fault there is nothing to save.
pub fn hang_up<R: Source, C: Closing>(reader: &mut R, writer: &mut C, fault: Option<EdgeFault>)
    ensures shut { fault ≡ None → C.is_shut writer.new ≡ true }
    ensures drained { fault ≡ None → HasDrained (R.left reader.old) (R.left reader.new) (R.take_failed reader.new) }
    ensures reader_kept { IsSome fault → reader.new ≡ reader.old }
    ensures writer_kept { IsSome fault → writer.new ≡ writer.old }
{
    if fault.is_none() {
        writer.shut();
        drain(reader);
    }
}
