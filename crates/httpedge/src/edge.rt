ghost use Rattle.std.specs.Prelude.{◌≡◌, ◌||◌, ◌+◌, ◌-◌, ◌<◌, ◌≤◌, ◌++◌, ℕ, List, [], Bool, Some, not, length, OnOk, OnErr, IfOk, IfErr, IfSome, MatchResult, Result, true};
ghost use Rattle.std.specs.Io.KnownBytes.{Consumes};
ghost use Rattle.streams.specs.Sent.{IsSent, IsCutSomewhere};
ghost use Rattle.answers.specs.declared.answer.Answer.{Answer};
ghost use Rattle.httpedge.specs.Connection.{Open, step_of, target_of, is_closing, goes_on, settled};
ghost use Rattle.httpedge.specs.Exchange.{IsReply, IsExchange, IsBegun, said_text};
ghost use Rattle.httpedge.specs.Meaning.{decision_meaning};
ghost use Rattle.httpedge.specs.Reads.{ReadsToPiece, ReadsToFault};
ghost use Rattle.httpedge.specs.Response.{response};
ghost use Rattle.httpedge.specs.Serving.{IsReading, Serves, requests_left, came_of, missing};
ghost use Rattle.httpedge.specs.Stopped.{HasExchanged, HasStopped, HasKeptUp, is_read, written_of};
ghost use Rattle.answers.specs.declared.asks.Busy.{Busy};
ghost use Rattle.httpedge.specs.declared.edge.EdgeFault.TheVariants.{Read, Write};

use crate::session::reply;
use crate::{Asks, Busy, Conn, Decision, Outcome};
use streams::{PutFailed, Sink, Source, put_pieces};
use thiserror::Error;

// How many bytes are read at once, at most.
const PIECE: usize = 4_096;

/// Why an exchange was given up.
#[derive(Clone, Copy, Debug, PartialEq, Eq, Error)]
pub enum EdgeFault {
    /// The reader failed. All answers before were sent.
    #[error("the reader failed after {written} bytes were written")]
    Read {
        /// How many bytes the answers before have in all.
        written: u128,
    },
    /// The writer failed.
    #[error("the writer failed after {written} bytes")]
    Write {
        /// How many bytes it took, of all answers.
        written: u128,
    },
}

impl EdgeFault {
    // That the reader failed, by how many bytes the writer had taken before the exchange.
    fn of_reader<W: Sink>(writer: &W, before: u128) -> Self
        requires grown { before ≤ W.taken writer.now }
        ensures { result ≡ Read (W.taken writer.now - before) }
    {
        EdgeFault::Read {
            written: writer.taken() - before,
        }
    }

    // That the writer failed, by how many bytes it had taken before the exchange.
    fn of_writer<W: Sink>(writer: &W, before: u128) -> Self
        requires grown { before ≤ W.taken writer.now }
        ensures { result ≡ Write (W.taken writer.now - before) }
    {
        EdgeFault::Write {
            written: writer.taken() - before,
        }
    }
}

// The outcome of a query.
fn ask<A: Asks>(asks: &mut A, query: &[u8]) -> Outcome
    ensures { (said : Result Answer Busy)
        × A.answers asks.old query.now said asks.new
        × ((closing : Bool) → response result closing ≡ said_text said closing) }
{
    match asks.answer(query) {
        Ok(answer) => Outcome::Answered(answer),
        Err(Busy) => Outcome::Busy,
    }
}

/// The response to a decision.
pub(crate) fn outcome<A: Asks>(conn: &Conn, decision: Decision, asks: &mut A) -> Outcome
    requires decided { step_of conn.now.progress ≡ Some decision }
    ensures { (closing : Bool)
        → IsReply A.answers closing (decision_meaning decision (target_of conn.now.progress))
        asks.old (response result closing) asks.new }
{
    match decision {
        Decision::Ask => ask(asks, conn.query()),
        Decision::Refused(refusal) => Outcome::Refused(refusal),
    }
}

// Answers a decision, and returns whether the connection goes on. Then the head is forgotten.
fn answer<W: Sink, A: Asks>(
    conn: &mut Conn,
    decision: Decision,
    writer: &mut W,
    asks: &mut A,
) -> Result<bool, PutFailed>
    requires decided { step_of conn.old.progress ≡ Some decision }
    ensures sent { OnOk result ((text : List ℕ) × IsSent W.held W.taken writer.old text writer.new
        × IsReply A.answers (is_closing conn.old) (decision_meaning decision (target_of conn.old.progress))
        asks.old text asks.new) }
    ensures cut { OnErr result ((text : List ℕ) × IsCutSomewhere W.held W.taken writer.old text writer.new
        × IsReply A.answers (is_closing conn.old) (decision_meaning decision (target_of conn.old.progress))
        asks.old text asks.new) }
    ensures next { IfOk result (λ on. on ≡ goes_on conn.old) }
    ensures forgets { OnOk result (conn.new ≡ settled conn.old) }
    ensures flag { MatchResult result (λ _. W.put_failed writer.new ≡ W.put_failed writer.old)
        (λ _. W.put_failed writer.new ≡ true) }
{
    let (outgoing, _) = reply(conn, decision, asks);
    let (head, body) = outgoing.parts();
    put_pieces(writer, &[head, body])?;
    Ok(conn.next())
}

// Answers the heads that end in a piece, one after the other, and returns whether the connection goes on.
fn answer_piece<W: Sink, A: Asks>(
    conn: &mut Conn,
    piece: &[u8],
    writer: &mut W,
    asks: &mut A,
) -> Result<bool, PutFailed>
    requires reading { IsReading conn.old }
    requires some { 0 < length piece.now }
    ensures serves { IfOk result (λ on. (text : List ℕ) × IsSent W.held W.taken writer.old text writer.new
        × Serves on A.answers (requests_left conn.old)
        (record { read = came_of conn.old.progress ++ piece.now; first = asks.old; said = text }) conn.new asks.new) }
    ensures less { IfOk result (λ on. on ≡ true → missing conn.new < missing conn.old) }
    ensures cut { OnErr result ((text : List ℕ) × IsCutSomewhere W.held W.taken writer.old text writer.new
        × ((more : List ℕ)
        → IsBegun A.answers (requests_left conn.old) ((came_of conn.old.progress ++ piece.now) ++ more)
        asks.old text asks.new)) }
    ensures flag { MatchResult result (λ _. W.put_failed writer.new ≡ W.put_failed writer.old)
        (λ _. W.put_failed writer.new ≡ true) }
{
    let mut rest = piece;
    loop {
        let fed = conn.feed(rest);
        let Some(decision) = fed.step else {
            return Ok(true);
        };
        let (_, others) = rest.split_at(fed.taken);
        if !answer(conn, decision, writer, asks)? {
            return Ok(false);
        }
        rest = others;
    }
}

// Answers the end of a stream.
fn answer_end<W: Sink, A: Asks>(
    conn: &mut Conn,
    writer: &mut W,
    asks: &mut A,
) -> Result<(), PutFailed>
    requires reading { IsReading conn.old }
    ensures sent { OnOk result ((text : List ℕ) × IsSent W.held W.taken writer.old text writer.new
        × IsExchange A.answers (requests_left conn.old) (came_of conn.old.progress) asks.old text asks.new) }
    ensures cut { OnErr result ((text : List ℕ) × IsCutSomewhere W.held W.taken writer.old text writer.new
        × IsBegun A.answers (requests_left conn.old) (came_of conn.old.progress) asks.old text asks.new) }
    ensures flag { MatchResult result (λ _. W.put_failed writer.new ≡ W.put_failed writer.old)
        (λ _. W.put_failed writer.new ≡ true) }
{
    match conn.end() {
        None => Ok(()),
        Some(decision) => match answer(conn, decision, writer, asks) {
            Ok(_) => Ok(()),
            Err(_) => Err(PutFailed),
        },
    }
}

/// Answers a stream: reads, and answers each head as soon as it is whole, up to the end or to a head that ends the
/// connection. The connection is new.
///
/// After a fault of the reader all answers to the bytes read were sent, `written` bytes in all. Where the writer fails,
/// exactly the first `written` bytes of the answers were sent.
///
/// It reads only while no whole head is unanswered and none has ended the connection (`reads`). It reads at most
/// 16,384,000 times (`most`), since each read but the last gives a byte, and there are 1,000 heads at most. Only the
/// answerer takes memory.
pub fn exchange<R: Source, W: Sink, A: Asks>(
    conn: &mut Conn,
    reader: &mut R,
    writer: &mut W,
    asks: &mut A,
) -> Result<(), EdgeFault>
    requires new { conn.old ≡ record { done = 0; progress = Open [] } }
    ensures exchanged { OnOk result (IfSome (R.left reader.old) (λ stream. HasExchanged A.answers ⟦<W as Sink>⟧ stream
        (record { asker = asks.old; asks = asks.new; before = writer.old; after = writer.new }))) }
    ensures stopped { IfErr result (λ fault. IfSome (R.left reader.old) (λ stream. HasStopped fault A.answers ⟦<W as Sink>⟧ stream
        (record { asker = asks.old; asks = asks.new; before = writer.old; after = writer.new }))) }
    ensures kept_up { IfErr result (λ fault. is_read fault ≡ true → (read : List ℕ)
        × Consumes (R.left reader.old) (R.left reader.new) read
        × HasKeptUp A.answers ⟦<W as Sink>⟧ read
        (record { asker = asks.old; asks = asks.new; before = writer.old; after = writer.new })) }
    ensures written { IfErr result (λ fault. W.taken writer.new ≡ W.taken writer.old + written_of fault) }
    ensures read_flag { MatchResult result (λ _. R.take_failed reader.new ≡ R.take_failed reader.old)
        (λ fault. R.take_failed reader.new ≡ (is_read fault || R.take_failed reader.old)) }
    ensures write_flag { MatchResult result (λ _. W.put_failed writer.new ≡ W.put_failed writer.old)
        (λ fault. W.put_failed writer.new ≡ (not (is_read fault) || W.put_failed writer.old)) }
    ensures reads { MatchResult result (λ _. ReadsToPiece R.left R.took reader.old reader.new)
        (λ fault. ReadsToFault fault R.left R.took reader.old reader.new) }
    ensures most { R.reads reader.new ≤ R.reads reader.old + 16384000 }
{
    let before = writer.taken();
    let mut room = [0; PIECE];
    loop {
        let Ok(count) = reader.take(&mut room) else {
            return Err(EdgeFault::of_reader(writer, before));
        };
        if count == 0 {
            return match answer_end(conn, writer, asks) {
                Ok(()) => Ok(()),
                Err(PutFailed) => Err(EdgeFault::of_writer(writer, before)),
            };
        }
        let (piece, _) = room.split_at(count);
        match answer_piece(conn, piece, writer, asks) {
            Ok(true) => {}
            Ok(false) => return Ok(()),
            Err(PutFailed) => return Err(EdgeFault::of_writer(writer, before)),
        }
    }
}
