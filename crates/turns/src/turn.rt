ghost use Rattle.std.specs.Prelude.{◌≡◌, ◌≢◌, ◌++◌, ◌≤◌, ◌<◌, ◌⊎◌, ℕ, List, [], Bool, None, Some, length, true, false, IfSome};
ghost use Rattle.httpedge.specs.Session.{wants, HasAsked, QueryOutcome};
ghost use Rattle.turns.specs.Advancing.{HasServed, HasTaken, HasCome, ReadsOnce, WritesOnce, Calls, Advances, exchange_state, Sends, Receives, IsNext};
ghost use Rattle.turns.specs.Transport.{count_of};
ghost use Rattle.turns.specs.declared.outcomes.ReadOutcome.TheVariants.{End, WouldBlock, Failed};
ghost use Rattle.turns.specs.declared.outcomes.WriteOutcome.TheVariants.{Bytes};
ghost use Rattle.turns.specs.declared.outcomes.WriteOutcome.TheVariants as write;
ghost use Rattle.turns.specs.declared.outcomes.ReadOutcome.TheVariants as read;
ghost use Rattle.turns.specs.declared.turn.Next.TheVariants.{Turn};

use crate::{Answered, BufferedSession, ReadOutcome, Transport, WriteOutcome};
use httpedge::Asks;

/// What a connection waits for after its turn.
#[derive(Clone, Copy, Debug, PartialEq, Eq)]
pub enum Next {
    /// Its next turn: there may be more to do at once.
    Turn,
    /// Bytes of its client.
    Readable,
    /// That its client takes bytes.
    Writable,
    /// Room for an answer: bytes came.
    Room,
    /// Nothing: its last answer was sent.
    Done,
    /// Nothing: it failed.
    Failed,
}

/// The result of a turn.
#[derive(Clone, Copy, Debug, PartialEq, Eq)]
pub struct TurnResult {
    /// What the connection waits for.
    pub next: Next,
    /// How many bytes were sent.
    pub sent: usize,
    /// Whether a query may have been asked: a head was answered, or the end of the client's bytes.
    pub asked: bool,
}

impl TurnResult {
    // That of a turn in which nothing was sent and no query was asked.
    fn without_query(next: Next) -> Self
        ensures { result ≡ record { next = next; sent = 0; asked = false } }
    {
        TurnResult {
            next,
            sent: 0,
            asked: false,
        }
    }
}

// Sends the bytes that are to be sent, as many as are taken at once.
fn send<T: Transport>(exchange: &mut BufferedSession, transport: &mut T) -> WriteOutcome
    ensures sends { Sends ⟦<T as Transport>⟧ exchange.old transport.old exchange.new transport.new (count_of result) }
    ensures writes { T.writes transport.old result transport.new }
    ensures some { result ≡ Bytes 0 → ⊥ }
    ensures waits { result ≡ write.WouldBlock → exchange.new ≡ exchange.old }
    ensures less { length exchange.new.session.outgoing ≤ length exchange.old.session.outgoing }
{
    let answered = Answered {
        target: exchange.session.target(),
        status: exchange.session.status(),
        is_followed: !exchange.buffer.is_empty(),
    };
    let (first, second) = exchange.session.outgoing();
    let outcome = transport.write_answer(&answered, first, second);
    if let WriteOutcome::Bytes(count) = outcome {
        exchange.session.sent(count);
    }
    outcome
}

// Sends the bytes that are to be sent, and returns what the connection waits for.
fn send_on<T: Transport>(exchange: &mut BufferedSession, transport: &mut T) -> TurnResult
    requires owes { exchange.old.session.outgoing ≢ [] }
    ensures calls { WritesOnce T.writes transport.old transport.new }
    ensures sends { Sends ⟦<T as Transport>⟧ exchange.old transport.old exchange.new transport.new result.sent }
    ensures next { (may_ask : Bool) → IsNext ⟦<T as Transport>⟧ may_ask result.next exchange.new transport.new }
    ensures sent { result.next ≡ Turn → 0 < result.sent }
    ensures less { length exchange.new.session.outgoing ≤ length exchange.old.session.outgoing }
{
    match send(exchange, transport) {
        WriteOutcome::WouldBlock => TurnResult::without_query(Next::Writable),
        WriteOutcome::Failed => TurnResult::without_query(Next::Failed),
        WriteOutcome::Bytes(sent) => TurnResult {
            next: if exchange.session.is_done() {
                Next::Done
            } else {
                Next::Turn
            },
            sent,
            asked: false,
        },
    }
}

// Reads once, where the buffer is empty.
fn receive<T: Transport>(exchange: &mut BufferedSession, transport: &mut T) -> ReadOutcome
    requires wanted { wants exchange.old.session ≡ true }
    ensures receives { Receives ⟦<T as Transport>⟧ exchange.old transport.old exchange.new transport.new }
    ensures calls { ReadsOnce T.reads transport.old transport.new }
    ensures comes { (n : ℕ) → result ≡ read.Bytes n → exchange.new.buffer ≢ [] }
    ensures none { result ≡ WouldBlock → exchange.new.buffer ≡ [] }
    ensures at_end { result ≡ End → T.reads transport.old End transport.new }
    ensures session { exchange.new.session ≡ exchange.old.session }
    ensures ends { result ≡ End → exchange.new.buffer ≡ [] }
    ensures waits { result ≡ WouldBlock → T.reads transport.old WouldBlock transport.new }
    ensures fails { result ≡ Failed → T.reads transport.old Failed transport.new }
    ensures brings { exchange.old.buffer ≡ [] → T.reads transport.old result transport.new }
{
    if exchange.buffer.is_empty() {
        exchange.buffer.fill(transport)
    } else {
        ReadOutcome::Bytes(1)
    }
}

// Feeds bytes of the buffer into the session: up to the end of a head, whose query is answered.
fn take_bytes<A: Asks>(exchange: &mut BufferedSession, asks: &mut A)
    ensures all { wants exchange.old.session ≡ true → wants exchange.new.session ≡ true → exchange.new.buffer ≡ [] }
    ensures quiet { wants exchange.new.session ≡ true → asks.new ≡ asks.old }
    ensures said { (queries : List QueryOutcome) × HasAsked A.answers asks.old queries asks.new
        × ((read written : List ℕ) (earlier : List QueryOutcome) → HasServed read earlier written exchange.old
        → HasServed read (earlier ++ queries) written exchange.new) }
{
    let count = exchange.session.feed(exchange.buffer.bytes(), asks);
    exchange.buffer.consume(count);
}

// Feeds the end of the stream into the session.
fn take_end(exchange: &mut BufferedSession)
    requires wanted { wants exchange.old.session ≡ true }
    requires empty { exchange.old.buffer ≡ [] }
    ensures ended { wants exchange.new.session ≡ false }
    ensures said { (read written : List ℕ) (queries : List QueryOutcome) → HasServed read queries written exchange.old
        → HasServed read queries written exchange.new }
{
    exchange.session.end();
}

// Takes the bytes that came. Returns what the connection waits for where none came, or no query may be answered.
fn take<T: Transport, A: Asks>(
    exchange: &mut BufferedSession,
    transport: &mut T,
    asks: &mut A,
    may_ask: bool,
) -> Option<Next>
    requires wanted { wants exchange.old.session ≡ true }
    ensures advances { Advances A.answers ⟦<T as Transport>⟧ (exchange_state exchange.old transport.old asks.old)
        (exchange_state exchange.new transport.new asks.new) 0 }
    ensures next { IfSome result (λ next. IsNext ⟦<T as Transport>⟧ may_ask next exchange.new transport.new) }
    ensures taken { result ≡ None → wants exchange.new.session ≡ true
        → HasTaken T.reads exchange.old transport.old exchange.new transport.new }
    ensures turns { result ≡ Some Turn → ⊥ }
    ensures calls { ReadsOnce T.reads transport.old transport.new }
    ensures unasked { may_ask ≡ false → exchange.new.session ≡ exchange.old.session }
    ensures silent { may_ask ≡ false → asks.new ≡ asks.old }
    ensures quiet { wants exchange.new.session ≡ true → asks.new ≡ asks.old }
{
    match receive(exchange, transport) {
        ReadOutcome::WouldBlock => Some(Next::Readable),
        ReadOutcome::Failed => Some(Next::Failed),
        _ if !may_ask => Some(Next::Room),
        ReadOutcome::Bytes(_) => {
            take_bytes(exchange, asks);
            None
        }
        ReadOutcome::End => {
            take_end(exchange);
            None
        }
    }
}

// Takes the bytes that came where the session takes further ones. Returns what the connection waits for where nothing is to
// be sent.
fn take_on<T: Transport, A: Asks>(
    exchange: &mut BufferedSession,
    transport: &mut T,
    asks: &mut A,
    may_ask: bool,
) -> Option<Next>
    ensures advances { Advances A.answers ⟦<T as Transport>⟧ (exchange_state exchange.old transport.old asks.old)
        (exchange_state exchange.new transport.new asks.new) 0 }
    ensures next { IfSome result (λ next. IsNext ⟦<T as Transport>⟧ may_ask next exchange.new transport.new) }
    ensures unasked { may_ask ≡ false → exchange.new.session ≡ exchange.old.session }
    ensures silent { may_ask ≡ false → asks.new ≡ asks.old }
    ensures answering { wants exchange.old.session ≡ false → asks.new ≡ asks.old }
    ensures quiet { wants exchange.new.session ≡ true → asks.new ≡ asks.old }
    ensures taken { result ≡ Some Turn → HasTaken T.reads exchange.old transport.old exchange.new transport.new }
    ensures calls { ReadsOnce T.reads transport.old transport.new }
    ensures owes { result ≡ None → exchange.new.session.outgoing ≢ [] }
{
    if exchange.session.is_done() {
        return Some(Next::Done);
    }
    if !exchange.session.wants_more() {
        return None;
    }
    if let Some(next) = take(exchange, transport, asks, may_ask) {
        return Some(next);
    }
    if exchange.session.wants_more() {
        return Some(Next::Turn);
    }
    if exchange.session.is_done() {
        return Some(Next::Done);
    }
    None
}

/// The turn of a connection: at most one read, one query and one write. Where no query may be answered, the bytes that came
/// aren't taken.
///
/// The bytes, queries and answers go on as its session does (`advances`), whatever other connections did before. It has no
/// further turn only where a read or a write would have waited or has failed, where no query may be answered, and where its
/// last answer was sent (`next`). It has one at once only where bytes were sent, or were taken (`moves`).
pub fn serve_turn<T: Transport, A: Asks>(
    exchange: &mut BufferedSession,
    transport: &mut T,
    asks: &mut A,
    may_ask: bool,
) -> TurnResult
    ensures advances { Advances A.answers ⟦<T as Transport>⟧ (exchange_state exchange.old transport.old asks.old)
        (exchange_state exchange.new transport.new asks.new) result.sent }
    ensures next { IsNext ⟦<T as Transport>⟧ may_ask result.next exchange.new transport.new }
    ensures calls { Calls ⟦<T as Transport>⟧ transport.old transport.new }
    ensures moves { result.next ≡ Turn
        → (0 < result.sent) ⊎ HasTaken T.reads exchange.old transport.old exchange.new transport.new }
    ensures no_more { may_ask ≡ false → length exchange.new.session.outgoing ≤ length exchange.old.session.outgoing }
    ensures silent { may_ask ≡ false → asks.new ≡ asks.old }
    ensures answering { wants exchange.old.session ≡ false → asks.new ≡ asks.old }
    ensures unasked { result.asked ≡ false → asks.new ≡ asks.old }
{
    let wanted = exchange.session.wants_more();
    let found = take_on(exchange, transport, asks, may_ask);
    let asked = wanted && !exchange.session.wants_more();
    match found {
        Some(next) => TurnResult {
            next,
            sent: 0,
            asked,
        },
        None => TurnResult {
            asked,
            ..send_on(exchange, transport)
        },
    }
}
