ghost use Rattle.std.specs.Prelude.{◌≡◌, ◌⊎◌, ◌||◌, ◌+◌, ◌≤◌, ℕ, List, not, OnOk, IfErr, IfSome, MatchResult, true};
ghost use Rattle.std.specs.Io.KnownBytes.{Consumes};
ghost use Rattle.httpedge.specs.Reads.{ReadsToPiece, ReadsToFault};
ghost use Rattle.httpedge.specs.Stopped.{HasKeptUp, is_read, written_of};
ghost use Rattle.blocking.specs.Connections.{HasServed, HasLeft};

use httpedge::{Asks, Conn, EdgeFault, Outcome, exchange, respond};
use std::alloc::Global;
use streams::{Sink, Source, WriteFault};

/// A connection that waits for a worker. Its sides are hidden: they are opened and closed in the worker's thread.
pub trait Connection {
    /// Answers it by an answerer, as [`serve_connection`] does for its sides, and ends it.
    fn serve<A: Asks>(self, alloc: Global, asks: &mut A);

    /// Answers that the server is busy, and ends it, without waiting for its client.
    fn turn_away(self, alloc: Global);
}

/// Answers one connection: all of its requests, one after the other. Where there is no memory for a head, nothing is read,
/// and the client gets the answer that the server is busy. Else the connection is read no further than `exchange` does.
/// After a fault of the reader all answers to the bytes read were sent; where the writer fails, exactly the first `written`
/// bytes of the answers were sent.
pub fn serve_connection<R: Source, W: Sink, A: Asks>(
    alloc: Global,
    asks: &mut A,
    reader: &mut R,
    writer: &mut W,
) -> Result<(), EdgeFault>
    ensures served { OnOk result (IfSome (R.left reader.old) (λ stream. HasServed A.answers stream
        (record { asker = asks.old; asks = asks.new; before = W.held writer.old; after = W.held writer.new }))) }
    ensures left { IfErr result (λ fault. IfSome (R.left reader.old) (λ stream. HasLeft fault A.answers stream
        (record { asker = asks.old; asks = asks.new; before = W.held writer.old; after = W.held writer.new }))) }
    ensures kept_up { IfErr result (λ fault. is_read fault ≡ true → (read : List ℕ)
        × Consumes (R.left reader.old) (R.left reader.new) read
        × HasKeptUp A.answers ⟦<W as Sink>⟧ read
        (record { asker = asks.old; asks = asks.new; before = writer.old; after = writer.new })) }
    ensures written { IfErr result (λ fault. W.taken writer.new ≡ W.taken writer.old + written_of fault) }
    ensures read_flag { MatchResult result (λ _. R.take_failed reader.new ≡ R.take_failed reader.old)
        (λ fault. R.take_failed reader.new ≡ (is_read fault || R.take_failed reader.old)) }
    ensures write_flag { MatchResult result (λ _. W.put_failed writer.new ≡ W.put_failed writer.old)
        (λ fault. W.put_failed writer.new ≡ (not (is_read fault) || W.put_failed writer.old)) }
    ensures reads { (reader.new ≡ reader.old)
        ⊎ MatchResult result (λ _. ReadsToPiece R.left R.took reader.old reader.new)
        (λ fault. ReadsToFault fault R.left R.took reader.old reader.new) }
    ensures most { R.reads reader.new ≤ R.reads reader.old + 16384000 }
{
    match Conn::new(alloc) {
        Ok(mut conn) => exchange(&mut conn, reader, writer, asks),
        Err(_) => match respond(&Outcome::Busy, true, writer) {
            Ok(()) => Ok(()),
            Err(WriteFault { written }) => Err(EdgeFault::Write { written }),
        },
    }
}
