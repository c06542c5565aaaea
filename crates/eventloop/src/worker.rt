ghost use Rattle.std.specs.Prelude.{◌≡◌, ◌<◌, ℕ, List, length, [], None, false, IfNone, IfOk, IfSome, MatchBool, MatchOption};
ghost use Rattle.eventloop.specs.Rounds.{AllFree, KeepsMoments};
ghost use Rattle.eventloop.specs.Working.{HasMadeRoom, HasOpened, HasLooked, HasRunAt, HasTurned, HasServedSome, at_least, state};
ghost use Rattle.httpedge.specs.Session.{HasAsked, QueryOutcome};
ghost use Rattle.turns.specs.Pressure.{NoneMay};
ghost use Rattle.turns.specs.Runs.{HasRun};
ghost use Rattle.turns.specs.Slots.{at_slot, OthersStay};
ghost use Rattle.turns.specs.Table.{Goes, IsFull, connections, is_pending, ready_slots, timeouts_of, room_of};
ghost use Rattle.turns.specs.Times.{deadline};
ghost use Rattle.turns.specs.declared.pressure.Pressure.TheVariants.{Slot};

use crate::ending_early::early_end;
use crate::handover::Handover;
use crate::poller::{Poller, Wakes};
use crate::turning_away::turn_away;
use accesslog::{Cause, EndsEarly};
use httpedge::Asks;
use std::alloc::{AllocError, Global};
use std::sync::Wait;
use turns::{
    Closed, ConnectionTable, Next, OpenConnection, Served, Timeouts, Transport, TurnClock,
};

/// While so many bytes of answers are to be sent, a worker makes no further answer.
pub const MAX_OWED_BYTES: usize = 67_108_864;

// How many turns without a query are made until the worker looks for events again, at most.
const MAX_TURNS: u32 = 64;

/// How many connections a worker has at most, and how long these may take.
#[derive(Clone, Copy)]
pub struct Capacity {
    /// How many slots it has.
    pub slots: usize,
    /// How long its connections may take.
    pub timeouts: Timeouts,
}

/// A worker: its answerer, its connections, and the poller of them.
#[derive(Drop)]
pub struct Worker<A, T: Drop, P> {
    alloc: Global,
    pub(crate) asks: A,
    pub(crate) poller: P,
    pub(crate) table: ConnectionTable<T>,
    timeouts: Timeouts,
    // The milliseconds of its clock behind its last wait, so that all that came before is known; and when it last looked for connections
    // whose time is over.
    pub(crate) now: u64,
    pub(crate) looked: u64,
    // Whether a connection just gave way for room: others may have to.
    pub(crate) has_made_room: bool,
    // Whether a connection waits for a slot.
    pub(crate) lacks_slot: bool,
}

impl<A: Asks, T: Transport + EndsEarly + Drop, P: Poller<T>> Worker<A, T, P> {
    /// One with no connection. Its error is that memory was refused.
    pub fn new(alloc: Global, asks: A, poller: P, capacity: Capacity) -> Result<Self, AllocError>
    where
        A: Drop,
        P: Drop,
        ensures len { IfOk result (λ worker. length (connections worker.table) ≡ capacity.slots) }
        ensures free { IfOk result (λ worker. AllFree worker.table) }
        ensures ready { IfOk result (λ worker. ready_slots worker.table ≡ []) }
        ensures timeouts { IfOk result
            (λ worker. (timeouts_of worker.table ≡ capacity.timeouts) × (worker.timeouts ≡ capacity.timeouts)) }
        ensures room { IfOk result (λ worker. room_of worker.table ≡ 67108864) }
        ensures parts { IfOk result (λ worker. (worker.asks ≡ asks) × (worker.poller ≡ poller)) }
    {
        let Capacity { slots, timeouts } = capacity;
        Ok(Worker {
            alloc,
            asks,
            poller,
            table: ConnectionTable::new(alloc, slots, timeouts, MAX_OWED_BYTES)?,
            timeouts,
            now: 0,
            looked: 0,
            has_made_room: false,
            lacks_slot: false,
        })
    }

    /// The waker of its wait, if there is one.
    pub fn waker(&self) -> Option<P::Waker> {
        self.poller.waker()
    }

    // A connection comes to a free slot. Where it can't be watched, or memory for it is refused, its client gets the answer that the
    // server is busy.
    fn open(&mut self, slot: usize, mut transport: T)
        requires known { slot < length (connections self.old.table) }
        requires free { at_slot (connections self.old.table) slot ≡ None }
        ensures run { HasRunAt A.answers ⟦<T as Transport>⟧ self.old.now (state self.old) (state self.new) }
        ensures opened { HasOpened self.old.now slot self.old.table self.new.table }
        ensures asks { self.new.asks ≡ self.old.asks }
        ensures moments { KeepsMoments self.old self.new }
    {
        if !self.poller.register(&mut transport, slot) {
            turn_away(&mut transport);
            return;
        }
        match OpenConnection::new(self.alloc, transport, self.now) {
            Ok(connection) => self.table.open(slot, connection),
            Err(mut transport) => turn_away(&mut transport),
        }
    }

    // A slot for a further connection: a free one, or that of the connection that gives way first, if one may.
    fn find_slot(&mut self) -> Option<usize>
        ensures run { HasRunAt A.answers ⟦<T as Transport>⟧ self.old.now (state self.old) (state self.new) }
        ensures known { IfSome result (λ slot. slot < length (connections self.new.table)) }
        ensures free { IfSome result (λ slot. at_slot (connections self.new.table) slot ≡ None) }
        ensures none { IfNone result (IsFull self.old.table × NoneMay (Slot self.old.now) self.old.table) }
        ensures asks { self.new.asks ≡ self.old.asks }
        ensures moments { KeepsMoments self.old self.new }
    {
        if let Some(slot) = self.table.free_slot() {
            return Some(slot);
        }
        let closed = self.table.close_for_slot(self.now)?;
        let slot = closed.slot;
        give_way(closed);
        Some(slot)
    }

    // Takes over the next connection that waits. Where there is no slot for it, it waits on. Returns whether one was taken over.
    fn take_over<R: Wait, W: Wakes>(&mut self, rt: &R, handover: &Handover<T, W>) -> bool
        ensures run { HasRunAt A.answers ⟦<T as Transport>⟧ self.old.now (state self.old) (state self.new) }
        ensures asks { self.new.asks ≡ self.old.asks }
        ensures moments { KeepsMoments self.old self.new }
    {
        self.lacks_slot = false;
        if !handover.has_waiting(rt) {
            return false;
        }
        let Some(slot) = self.find_slot() else {
            self.lacks_slot = true;
            return false;
        };
        let Some(transport) = handover.take(rt) else {
            return false;
        };
        self.open(slot, transport);
        true
    }

    // Takes over those that wait, as many as there are slots for.
    pub(crate) fn take_over_all<R: Wait, W: Wakes>(&mut self, rt: &R, handover: &Handover<T, W>)
        ensures run { HasRunAt A.answers ⟦<T as Transport>⟧ self.old.now (state self.old) (state self.new) }
        ensures asks { self.new.asks ≡ self.old.asks }
        ensures moments { KeepsMoments self.old self.new }
    {
        for _ in 0..self.table.len() {
            if !self.take_over(rt, handover) {
                return;
            }
        }
    }

    // A connection that had a turn leaves, if it is over.
    fn leave(&mut self, served: Served)
        ensures run { HasRunAt A.answers ⟦<T as Transport>⟧ self.old.now (state self.old) (state self.new) }
        ensures asks { self.new.asks ≡ self.old.asks }
        ensures moments { KeepsMoments self.old self.new }
    {
        if matches!(served.next, Some(Next::Done) | Some(Next::Failed)) {
            self.close_overdue(served.slot);
        }
    }

    // Makes a turn, if a slot has one. A connection that is over leaves. Returns whether a query may have been asked in it: then the clock
    // was read behind it, for what the connection does next. The worker's own moment stays, as what came meanwhile isn't known yet.
    fn serve_one<C: TurnClock>(&mut self, clock: &C) -> Option<bool>
        ensures turn { MatchOption result
            ((ready_slots self.old.table ≡ []) × HasRun A.answers ⟦<T as Transport>⟧ (state self.old) (state self.new))
            (λ _. HasTurned A.answers ⟦<T as Transport>⟧ (record { least = 1; now = self.old.now })
            (state self.old) (state self.new)) }
        ensures once { (queries : List QueryOutcome) × HasAsked A.answers self.old.asks queries self.new.asks }
        ensures unasked { MatchOption result (self.new.asks ≡ self.old.asks)
            (λ asked. asked ≡ false → self.new.asks ≡ self.old.asks) }
        ensures moments { KeepsMoments self.old self.new }
    {
        let served = self.table.serve_next(&mut self.asks, self.now, clock)?;
        self.leave(served);
        Some(served.asked)
    }

    // Makes turns up to the first in which a query may have been asked, or some, or all that there are. Returns whether one may have
    // been asked.
    pub(crate) fn serve_some<C: TurnClock>(&mut self, clock: &C) -> bool
        ensures turns { MatchBool result
            (HasTurned A.answers ⟦<T as Transport>⟧ (at_least 1 self.old) (state self.old) (state self.new))
            (HasServedSome A.answers ⟦<T as Transport>⟧ (at_least 64 self.old) (state self.old) (state self.new)) }
        ensures once { (queries : List QueryOutcome) × HasAsked A.answers self.old.asks queries self.new.asks }
        ensures run { HasRun A.answers ⟦<T as Transport>⟧ (state self.old) (state self.new) }
        ensures moments { KeepsMoments self.old self.new }
    {
        for _ in 0..MAX_TURNS {
            match self.serve_one(clock) {
                None => return false,
                Some(true) => return true,
                Some(false) => {}
            }
        }
        false
    }

    // Closes the connection at a slot where its time is over and it has nothing to do. The cause is noted, unless its client had all of
    // its answers.
    fn close_overdue(&mut self, slot: usize)
        ensures run { HasRunAt A.answers ⟦<T as Transport>⟧ self.old.now (state self.old) (state self.new) }
        ensures in_time { is_pending self.old.table slot ≡ false → IfSome (at_slot (connections self.new.table) slot)
            (λ connection. self.old.now < deadline (timeouts_of self.old.table) connection.phase) }
        ensures others { OthersStay slot (connections self.old.table) (connections self.new.table) }
        ensures goes { Goes self.old.table self.new.table }
        ensures asks { self.new.asks ≡ self.old.asks }
        ensures moments { KeepsMoments self.old self.new }
    {
        if let Some(mut connection) = self.table.close_overdue(slot, self.now)
            && let Some(cause) = early_end(&connection, &self.timeouts, self.now)
        {
            connection.transport.note_end(cause);
        }
    }

    // Closes those whose time is over and that have nothing to do.
    pub(crate) fn look(&mut self)
        ensures run { HasRunAt A.answers ⟦<T as Transport>⟧ self.old.now (state self.old) (state self.new) }
        ensures looked { HasLooked self.old.now self.old.table self.new.table }
        ensures asks { self.new.asks ≡ self.old.asks }
        ensures moments { KeepsMoments self.old self.new }
    {
        for slot in 0..self.table.len() {
            self.close_overdue(slot);
        }
    }

    // Where an answer waits for room, the slowest reader gives way, if one may. The next wait is short then, as others may have to.
    pub(crate) fn make_room(&mut self)
        ensures run { HasRunAt A.answers ⟦<T as Transport>⟧ self.old.now (state self.old) (state self.new) }
        ensures room { HasMadeRoom self.old.now self.old.table self.new.table }
        ensures asks { self.new.asks ≡ self.old.asks }
        ensures moments { KeepsMoments self.old self.new }
    {
        let closed = self.table.close_for_room(self.now);
        self.has_made_room = closed.is_some();
        if let Some(closed) = closed {
            give_way(closed);
        }
    }
}

// Notes that a connection gave way.
pub(crate) fn give_way<T: EndsEarly + Drop>(closed: Closed<T>) {
    let Closed { mut connection, .. } = closed;
    connection.transport.note_end(Cause::GaveWay);
}
