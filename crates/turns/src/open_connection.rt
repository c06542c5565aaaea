ghost use Rattle.std.specs.Prelude.{◌≡◌, ◌≤◌, ◌<◌, ◌^◌, ℕ, [], IfOk, IfErr, false, max, true};
ghost use Rattle.httpedge.specs.Session.{new_session};
ghost use Rattle.turns.specs.declared.times.Phase.TheVariants.{Opened};
ghost use Rattle.turns.specs.Drain.{brought, next_drained, phase_drained};

use crate::drained::MAX_DRAINED_BYTES;
use crate::turn_clock::end_of;
use crate::{BufferedSession, Next, Phase, ReadOutcome, Transport, TurnClock, serve_turn};
use httpedge::Asks;
use std::alloc::Global;

/// A connection of a worker.
#[derive(Drop)]
pub struct OpenConnection<T> {
    /// The session, which answers the client.
    pub exchange: BufferedSession,
    /// The connection to the client.
    pub transport: T,
    /// Its phase: what it does, and since when.
    pub phase: Phase,
    /// How many bytes of its client were dropped after its last answer.
    pub dropped: usize,
}

/// When a turn is made, and what it may do.
#[derive(Clone, Copy)]
pub struct TurnConditions {
    /// Whether a query may be answered in it.
    pub may_ask: bool,
    /// When it begins, in milliseconds of the worker's clock.
    pub now: u64,
}

/// What a turn left.
#[derive(Clone, Copy, Debug, PartialEq, Eq)]
pub struct TurnEnd {
    /// What the connection waits for.
    pub next: Next,
    /// Whether a query may have been asked: a head was answered, or the end of the client's bytes.
    pub asked: bool,
    /// When it ended, in milliseconds of the worker's clock: later than it began only where a query may have been asked.
    pub ended: u64,
}

impl TurnEnd {
    // That of a turn at this moment in which no query was asked.
    fn without_query(next: Next, now: u64) -> Self
        ensures { result ≡ record { next = next; asked = false; ended = now } }
    {
        TurnEnd {
            next,
            asked: false,
            ended: now,
        }
    }
}

// How many bytes a read brought.
fn brought(outcome: ReadOutcome) -> usize
    ensures { result ≡ brought outcome }
{
    match outcome {
        ReadOutcome::Bytes(count) => count,
        _ => 0,
    }
}

// What a connection waits for after a read whose bytes were dropped, so many in all.
fn next_drained(outcome: ReadOutcome, dropped: usize) -> Next
    ensures { result ≡ next_drained outcome dropped }
{
    match outcome {
        ReadOutcome::Bytes(_) if dropped <= MAX_DRAINED_BYTES => Next::Turn,
        ReadOutcome::WouldBlock => Next::Readable,
        ReadOutcome::Failed => Next::Failed,
        _ => Next::Done,
    }
}

// The phase of a connection after a turn in which it was drained.
fn phase_drained(next: Next, phase: Phase) -> Phase
    ensures { result ≡ phase_drained next phase }
{
    match next {
        Next::Done | Next::Failed => Phase::Over,
        _ => phase,
    }
}

impl<T: Transport> OpenConnection<T> {
    ghost use Rattle.turns.specs.Connection.{connection_state, ended_at, owed_by, IsServed, IsDrained, IsTurn};

    /// A connection that is opened now. Where its memory is refused the transport is returned.
    pub fn new(alloc: Global, transport: T, now: u64) -> Result<Self, T>
    where
        T: Drop,
        ensures transport { IfOk result (λ connection. connection.transport ≡ transport) }
        ensures session { IfOk result (λ connection. connection.exchange.session ≡ new_session) }
        ensures buffer { IfOk result (λ connection. connection.exchange.buffer ≡ []) }
        ensures phase { IfOk result (λ connection. connection.phase ≡ Opened now) }
        ensures refused { IfErr result (λ back. back ≡ transport) }
    {
        match BufferedSession::new(alloc) {
            Ok(exchange) => Ok(OpenConnection {
                exchange,
                transport,
                phase: Phase::Opened { since: now },
                dropped: 0,
            }),
            Err(_) => Err(transport),
        }
    }

    /// How many bytes of an answer are to be sent.
    pub fn owed(&self) -> u128
        ensures value { result ≡ owed_by self.now }
        ensures small { result < 2 ^ 66 }
    {
        let (first, second) = self.exchange.session.outgoing();
        first.len() as u128 + second.len() as u128
    }

    // A turn before the last answer was sent. After that answer the sending side is closed, and further turns drain. What the
    // connection does from now on begins when the turn ended.
    fn serve<A: Asks, C: TurnClock>(
        &mut self,
        asks: &mut A,
        conditions: TurnConditions,
        clock: &C,
    ) -> TurnEnd
        ensures served { IsServed A.answers ⟦<T as Transport>⟧ (ended_at conditions result.ended)
            (connection_state self.old asks.old) (connection_state self.new asks.new) result.next }
        ensures later { conditions.now ≤ result.ended }
        ensures read { result.asked ≡ true → (moment : ℕ) × C.shows clock.now moment × (result.ended ≡ max conditions.now moment) }
        ensures unasked { result.asked ≡ false → (result.ended ≡ conditions.now) × (asks.new ≡ asks.old) }
        ensures no_more { conditions.may_ask ≡ false → (owed_by self.new ≤ owed_by self.old) × (asks.new ≡ asks.old) }
    {
        let turned = serve_turn(
            &mut self.exchange,
            &mut self.transport,
            asks,
            conditions.may_ask,
        );
        let asked = turned.asked;
        let ended = end_of(clock, asked, conditions.now);
        let owes = self.owed() > 0;
        self.phase = self.phase.after(turned, owes, ended);
        if turned.next == Next::Done {
            self.transport.shut_down();
            TurnEnd {
                next: Next::Turn,
                asked,
                ended,
            }
        } else {
            TurnEnd {
                next: turned.next,
                asked,
                ended,
            }
        }
    }

    // A turn after the last answer: the bytes that still come are dropped.
    fn drain(&mut self) -> Next
        ensures { IsDrained ⟦<T as Transport>⟧ self.old self.new result }
    {
        let left = self.exchange.buffer.bytes().len();
        self.exchange.buffer.consume(left);
        let outcome = self.exchange.buffer.fill(&mut self.transport);
        self.dropped = self.dropped.saturating_add(brought(outcome));
        let next = next_drained(outcome, self.dropped);
        self.phase = phase_drained(next, self.phase);
        next
    }

    /// The connection's turn. Where a query may have been asked in it, the clock is read behind that.
    pub fn turn<A: Asks, C: TurnClock>(
        &mut self,
        asks: &mut A,
        conditions: TurnConditions,
        clock: &C,
    ) -> TurnEnd
        ensures turn { IsTurn A.answers ⟦<T as Transport>⟧ (ended_at conditions result.ended)
            (connection_state self.old asks.old) (connection_state self.new asks.new) result.next }
        ensures later { conditions.now ≤ result.ended }
        ensures read { result.asked ≡ true → (moment : ℕ) × C.shows clock.now moment × (result.ended ≡ max conditions.now moment) }
        ensures unasked { result.asked ≡ false → (result.ended ≡ conditions.now) × (asks.new ≡ asks.old) }
    {
        let now = conditions.now;
        match self.phase {
            Phase::Over => TurnEnd::without_query(Next::Failed, now),
            Phase::Drain { .. } => TurnEnd::without_query(self.drain(), now),
            _ => self.serve(asks, conditions, clock),
        }
    }
}
