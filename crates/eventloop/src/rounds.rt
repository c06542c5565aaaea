//! The rounds of a worker's loop.

ghost use Rattle.std.specs.Prelude.{◌≡◌, ℕ, List, true, if◌then◌else◌, max, MatchBool};
ghost use Rattle.eventloop.specs.Rounds.{AllFree, HasEndedBy, HasFinished, HasObeyed, HasWaited, IsRound, KeepsMoments, is_due};
ghost use Rattle.eventloop.specs.Working.{HasLooked, HasRunAt, HaveTurns, state};
ghost use Rattle.eventloop.specs.declared.orders.Orders.{Orders as Told};
ghost use Rattle.turns.specs.Runs.{HasRun};
ghost use Rattle.turns.specs.Table.{Goes, connections};

use crate::handed_over::Ending;
use crate::handover::Handover;
use crate::orders::Orders;
use crate::poller::{Poller, Wakes};
use crate::worker::{Worker, give_way};
use crate::worker_clock::WorkerClock;
use accesslog::{Cause, EndsEarly};
use httpedge::Asks;
use std::rt::Clock;
use std::sync::Wait;
use std::time::{Duration, Instant};
use turns::{ConnectionTable, Transport, TurnClock};

/// How many slots one wait gives, at most: each that a worker has, and its waker. So a connection without a turn has nothing to
/// do, and may give way.
pub const MAX_EVENTS: usize = 1_025;

// How many milliseconds pass between two looks for connections whose time is over.
const TIMEOUT_CHECK_MILLIS: u64 = 100;

// How many milliseconds pass, at most, until a worker looks again whether a slot is free for a connection that waits.
const SLOT_CHECK_MILLIS: u64 = 5;

impl<A: Asks, T: Transport + EndsEarly + Drop, P: Poller<T>> Worker<A, T, P> {
    // Looks, where the last look is long enough ago.
    fn tick<R: Wait, W: Wakes>(&mut self, rt: &R, handover: &Handover<T, W>)
        ensures run { HasRunAt A.answers ⟦<T as Transport>⟧ self.old.now (state self.old) (state self.new) }
        ensures looks { MatchBool (is_due self.old) (HasLooked self.old.now self.old.table self.new.table) (self.new.table ≡ self.old.table) }
        ensures last_look { self.new.looked ≡ (if is_due self.old then self.old.now else self.old.looked) }
        ensures asks { self.new.asks ≡ self.old.asks }
        ensures now { self.new.now ≡ self.old.now }
    {
        if self.now.saturating_sub(self.looked) < TIMEOUT_CHECK_MILLIS {
            return;
        }
        self.looked = self.now;
        self.look();
        handover.note_serving(rt, !self.table.is_empty());
    }

    // Waits for events, and notes which connections may go on. It doesn't wait while a connection has a turn, and not for long while one
    // waits for a slot.
    fn wait(&mut self, room: &mut [usize])
        ensures run { HasRun A.answers ⟦<T as Transport>⟧ (state self.old) (state self.new) }
        ensures woken { (slots : List ℕ)
            × P.reported self.old.poller slots self.new.poller
            × HaveTurns slots self.old.table self.new.table }
        ensures connections { connections self.new.table ≡ connections self.old.table }
        ensures asks { self.new.asks ≡ self.old.asks }
        ensures moments { KeepsMoments self.old self.new }
    {
        let at_most = if self.table.is_ready() || self.has_made_room {
            0
        } else if self.lacks_slot {
            SLOT_CHECK_MILLIS
        } else {
            TIMEOUT_CHECK_MILLIS
        };
        let count = self.poller.wait(Duration::from_millis(at_most), room);
        wake_all(&mut self.table, &room[..count]);
    }

    // Closes the connections that aren't being answered.
    fn close_unanswered(&mut self)
        ensures run { HasRun A.answers ⟦<T as Transport>⟧ (state self.old) (state self.new) }
        ensures closed { HasEndedBy Ending.Stops self.old.table self.new.table }
        ensures asks { self.new.asks ≡ self.old.asks }
        ensures moments { KeepsMoments self.old self.new }
    {
        for slot in 0..self.table.len() {
            if let Some(mut connection) = self.table.close_unanswered(slot) {
                connection.transport.note_end(Cause::Stopped);
            }
        }
    }

    // Obeys what it is to do now. Returns whether it ends, and how.
    fn obey(&mut self, orders: Orders) -> Ending
        ensures run { HasRun A.answers ⟦<T as Transport>⟧ (state self.old) (state self.new) }
        ensures pressed { HasObeyed self.old.now orders.is_pressed self.old.table self.new.table }
        ensures ending { result ≡ orders.ending }
        ensures asks { self.new.asks ≡ self.old.asks }
        ensures moments { KeepsMoments self.old self.new }
    {
        let (ending, closed) = orders.obey(&mut self.table, self.now);
        if let Some(closed) = closed {
            give_way(closed);
        }
        ending
    }

    // Whether it has ended, in this way.
    fn has_ended(&mut self, ending: Ending) -> bool
        ensures run { HasRun A.answers ⟦<T as Transport>⟧ (state self.old) (state self.new) }
        ensures ends { HasEndedBy ending self.old.table self.new.table }
        ensures free { result ≡ true → AllFree self.new.table }
        ensures told { result ≡ true → ending ≡ Ending.GoesOn → ⊥ }
        ensures asks { self.new.asks ≡ self.old.asks }
        ensures moments { KeepsMoments self.old self.new }
    {
        match ending {
            Ending::GoesOn => return false,
            Ending::Finishes => {}
            Ending::Stops => self.close_unanswered(),
        }
        self.table.is_empty()
    }

    // Notes how much time has passed.
    fn note_time<C: TurnClock>(&mut self, clock: &C)
        ensures same { (self.new.table ≡ self.old.table) × (self.new.asks ≡ self.old.asks) }
        ensures read { (moment : ℕ) × C.shows clock.now moment × (self.new.now ≡ max self.old.now moment) }
        ensures last_look { self.new.looked ≡ self.old.looked }
    {
        self.now = self.now.max(clock.moment());
    }

    // Waits, and notes how much time has passed.
    fn wait_by<C: TurnClock>(&mut self, clock: &C, room: &mut [usize])
        ensures run { HasRun A.answers ⟦<T as Transport>⟧ (state self.old) (state self.new) }
        ensures waited { HasWaited (C.shows clock.now) self.old self.new }
    {
        self.wait(room);
        self.note_time(clock);
    }

    // Does what is to be done after a wait. Returns whether it has ended.
    fn round<R: Wait, C: TurnClock, W: Wakes>(
        &mut self,
        rt: &R,
        clock: &C,
        handover: &Handover<T, W>,
    ) -> bool
        ensures run { HasRun A.answers ⟦<T as Transport>⟧ (state self.old) (state self.new) }
        ensures round { (orders : Told) × IsRound A.answers ⟦<T as Transport>⟧ orders self.old self.new
            × (result ≡ true → orders.ending ≡ Ending.GoesOn → ⊥) }
        ensures free { result ≡ true → AllFree self.new.table }
    {
        // (no connection is handed over any more where a worker ends)
        let ending = self.obey(handover.orders(rt));
        self.take_over_all(rt, handover);
        self.serve_some(clock);
        self.make_room();
        self.tick(rt, handover);
        self.has_ended(ending) && !handover.has_waiting(rt)
    }
}

// Each of these slots has a turn.
fn wake_all<T: Transport + Drop>(table: &mut ConnectionTable<T>, slots: &[usize])
    ensures turns { HaveTurns slots.now table.old table.new }
    ensures connections { connections table.new ≡ connections table.old }
    ensures goes { Goes table.old table.new }
{
    for slot in slots {
        table.wake(*slot);
    }
}

// Makes rounds by a clock, until the worker may end.
fn work<R, C, A, T, P, W>(
    rt: &R,
    clock: &C,
    mut worker: Worker<A, T, P>,
    handover: &Handover<T, W>,
) -> Worker<A, T, P>
where
    R: Wait,
    C: TurnClock,
    A: Asks + Drop,
    T: Transport + EndsEarly + Drop,
    P: Poller<T> + Drop,
    W: Wakes,
    ensures run { HasRun A.answers ⟦<T as Transport>⟧ (state worker) (state result) }
    ensures finished { HasFinished A.answers ⟦<T as Transport>⟧ (C.shows clock.now) worker result }
    ensures free { AllFree result.table }
{
    let mut room = [0; MAX_EVENTS];
    for _ in rt.forever() {
        worker.wait_by(clock, &mut room);
        if worker.round(rt, clock, handover) {
            return worker;
        }
    }
    unreachable!()
}

/// Serves connections in turns as they become ready, until its worker may end. Its clock shows the time since a start.
pub fn run<R, A, T, P, W>(
    rt: &R,
    start: Instant,
    worker: Worker<A, T, P>,
    handover: &Handover<T, W>,
) -> Worker<A, T, P>
where
    R: Clock + Wait,
    A: Asks + Drop,
    T: Transport + EndsEarly + Drop,
    P: Poller<T> + Drop,
    W: Wakes,
    ensures run { HasRun A.answers ⟦<T as Transport>⟧ (state worker) (state result) }
    ensures finished { HasFinished A.answers ⟦<T as Transport>⟧ (λ _. Unit {0}) worker result }
    ensures free { AllFree result.table }
{
    let clock = WorkerClock { rt, start };
    work(rt, &clock, worker, handover)
}
