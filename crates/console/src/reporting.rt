ghost use Rattle.std.specs.Prelude.{◌≡◌, OnOk, MatchResult};
ghost use Rattle.std.specs.List.{flat_map};
ghost use Rattle.console.specs.Console.{IsReported, IsWritten, HasFlushed};

use crate::failure::Failure;
use crate::terminal::Writes;
use streams::{Sink, put_pieces};

/// Reports a line, in pieces. Where it can't be written, only the exit status reports the failure.
pub fn report<E: Sink>(errors: &mut E, pieces: &[&[u8]])
    ensures { IsReported (⟦<E as Writes>⟧.state errors.old) (⟦<E as Writes>⟧.state errors.new) (flat_map (λ piece. piece.now) pieces.now) }
{
    match put_pieces(errors, pieces) {
        Ok(()) => {
            let _ = errors.flush();
        }
        Err(_) => {}
    }
}

/// Flushes the output.
pub fn flush<O: Sink>(output: &mut O) -> Result<(), Failure>
    ensures { HasFlushed result (⟦<O as Writes>⟧.state output.old) (⟦<O as Writes>⟧.state output.new) }
{
    match output.flush() {
        Ok(()) => Ok(()),
        Err(_) => Err(Failure::OutputFailed),
    }
}

/// Writes a line to the output, in pieces, and flushes it.
pub fn finish<O: Sink>(output: &mut O, pieces: &[&[u8]]) -> Result<(), Failure>
    ensures { IsWritten result (⟦<O as Writes>⟧.state output.old) (⟦<O as Writes>⟧.state output.new) (flat_map (λ piece. piece.now) pieces.now) }
{
    match put_pieces(output, pieces) {
        Ok(()) => flush(output),
        Err(_) => Err(Failure::OutputFailed),
    }
}
