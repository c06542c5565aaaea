ghost use Rattle.std.specs.Prelude.{◌≡◌, ◌≤◌, ◌<◌, ◌+◌, ◌^◌, [], ◌∷◌, length, max, true, false};
ghost use Rattle.turns.specs.Owed.{owed_at, owed_in_all};
ghost use Rattle.turns.specs.Room.{IsInvited, share_of};
ghost use Rattle.turns.specs.Slots.{at_slot};
ghost use Rattle.turns.specs.declared.answer_size.AnswerSize.TheVariants.{Small, Large};

use crate::answer_size::{patience_for, share_of};
use crate::pressure::first_of;
use crate::queues::{admit, settle};
use crate::room::may_be_asked;
use crate::slots::Slots;
use crate::{
    AnswerSize, Closed, OpenConnection, Pressure, ReadyQueue, Served, Timeouts, Transport,
    TurnClock, TurnConditions, WaitingQueues,
};
use httpedge::Asks;
use std::alloc::{AllocError, Global};

/// The connections of a worker, each at a slot, and which of them has the next turn.
///
/// The responses that are to be sent to them have at most `room` bytes and one response more (`bounded`). A query is
/// answered only while they have less than `room` bytes, and one whose answer isn't reckoned as small only while they have less
/// than three quarters of it. Where there is room and connections wait for it, the one that has waited longest has a turn
/// (`small_invited`, `large_invited`), and none that came later is answered before it (`line`). No call but `close_overdue`, `close_unanswered`, `close_for_slot`, `close_for_descriptor` and
/// `close_for_room` removes a connection from its slot.
#[derive(Drop)]
pub struct ConnectionTable<T: Drop> {
    slots: Slots<T>,
    // Those that have a turn.
    ready: ReadyQueue,
    // Those that wait for room.
    waiting: WaitingQueues,
    timeouts: Timeouts,
    // A query is answered only while fewer bytes are to be sent.
    room: usize,
    // The slot of the last turn in which a query might be answered.
    last_asked: usize,
    ghost counted: { slots.owed ≡ owed_in_all slots.items.items },
    ghost bounded: { slots.owed ≤ room + owed_at (at_slot slots.items.items last_asked) },
    ghost small: { slots.owed < 2 ^ 67 },
    ghost ready_slots: { ready.slots ≡ length slots.items.items },
    ghost small_slots: { waiting.small.slots ≡ length slots.items.items },
    ghost large_slots: { waiting.large.slots ≡ length slots.items.items },
    ghost small_invited: { slots.owed < share_of Small room → IsInvited waiting.small.order ready.order },
    ghost large_invited: { slots.owed < share_of Large room → IsInvited waiting.large.order ready.order },
}

impl<T: Transport + Drop> ConnectionTable<T> {
    ghost use Rattle.std.specs.Prelude.{◌⊎◌, ℕ, List, None, Some, IfOk, IfSome, IfNone, MatchOption, is_some, is_none, not, ◌==◌};
    ghost use Rattle.std.specs.List.{list_all};
    ghost use Rattle.httpedge.specs.Session.{HasAsked, QueryOutcome};
    ghost use Rattle.turns.specs.Connection.{owed_by};
    ghost use Rattle.turns.specs.Pressure.{IsFirst, NoneMay, for_room, rank_at};
    ghost use Rattle.turns.specs.declared.pressure.Pressure.TheVariants as pressure;
    ghost use Rattle.turns.specs.Queue.{has, joins};
    ghost use Rattle.turns.specs.Room.{is_size, line_after, waits_for};
    ghost use Rattle.turns.specs.Runs.{HasRun, IsTurnOf, state_at, turn_of};
    ghost use Rattle.turns.specs.Slots.{OthersStay, HasTurn};
    ghost use Rattle.turns.specs.Table.{connections, lacks_room, may_ask_at, ready_slots, size_at, waiting_for, waiting_slots, timeouts_of, room_of, is_pending, terms_at, ClosedOrStayed, Goes, IsFull, KeepsLimits, LeftOrStayed};
    ghost use Rattle.turns.specs.Times.{deadline, is_unanswered};
    ghost use Rattle.turns.specs.declared.turn.Next.TheVariants.{Turn, Room};

    /// A table of so many slots, with no connection at any. A query is answered only while fewer than `room` bytes are to
    /// be sent.
    pub fn new(
        alloc: Global,
        slots: usize,
        timeouts: Timeouts,
        room: usize,
    ) -> Result<Self, AllocError>
        ensures len { IfOk result (λ table. length (connections table) ≡ slots) }
        ensures free { IfOk result (λ table. (slot : ℕ) → at_slot (connections table) slot ≡ None) }
        ensures ready { IfOk result (λ table. ready_slots table ≡ []) }
        ensures limits { IfOk result (λ table. (timeouts_of table ≡ timeouts) × (room_of table ≡ room)) }
    {
        Ok(ConnectionTable {
            slots: Slots::new(alloc, slots)?,
            ready: ReadyQueue::new(alloc, slots)?,
            waiting: WaitingQueues::new(alloc, slots)?,
            timeouts,
            room,
            last_asked: 0,
        })
    }

    /// How many slots there are.
    pub fn len(&self) -> usize
        ensures { result ≡ length (connections self.now) }
    {
        self.slots.items.len()
    }

    /// Whether no slot has a connection. It looks at each.
    pub fn is_empty(&self) -> bool
        ensures { result ≡ list_all is_none (connections self.now) }
    {
        self.slots.is_empty()
    }

    /// The first slot without a connection.
    pub fn free_slot(&self) -> Option<usize>
        ensures known { IfSome result (λ slot. slot < length (connections self.now)) }
        ensures free { IfSome result (λ slot. at_slot (connections self.now) slot ≡ None) }
        ensures full { IfNone result (IsFull self.now) }
    {
        self.slots.free()
    }

    /// A connection comes to a free slot and has a turn. Nothing is to be sent to it.
    pub fn open(&mut self, slot: usize, connection: OpenConnection<T>)
        requires known { slot < length (connections self.old) }
        requires free { at_slot (connections self.old) slot ≡ None }
        requires fresh { owed_by connection ≡ 0 }
        ensures here { at_slot (connections self.new) slot ≡ Some connection }
        ensures others { OthersStay slot (connections self.old) (connections self.new) }
        ensures ready { has slot (ready_slots self.new) ≡ true }
        ensures goes { Goes self.old self.new }
    {
        self.slots.put(slot, connection);
        self.ready.add(slot);
    }

    /// The connection at a slot may have something to do: it has a turn.
    pub fn wake(&mut self, slot: usize)
        ensures ready { slot < length (connections self.old) → has slot (ready_slots self.new) ≡ true }
        ensures connections { connections self.new ≡ connections self.old }
        ensures goes { Goes self.old self.new }
    {
        self.ready.add(slot);
    }

    /// Whether a slot has a turn.
    pub fn is_ready(&self) -> bool
        ensures { result ≡ not (length (ready_slots self.now) == 0) }
    {
        !self.ready.is_empty()
    }

    /// Makes the next turn, which begins now: that of the slot that has waited longest. There is none where no slot has a turn. Where a
    /// query may have been asked in it, the clock is read behind that: the connection does what follows since then.
    pub fn serve_next<A: Asks, C: TurnClock>(
        &mut self,
        asks: &mut A,
        now: u64,
        clock: &C,
    ) -> Option<Served>
        ensures first { MatchOption result (ready_slots self.old ≡ [])
            (λ served. (rest : List ℕ) × (slots : List ℕ)
            × (ready_slots self.old ≡ served.slot ∷ rest) × (ready_slots self.new ≡ joins rest slots)) }
        ensures none { IfNone result ((connections self.new ≡ connections self.old) × (asks.new ≡ asks.old)) }
        ensures nobody { IfSome result
            (λ served. IfNone served.next ((connections self.new ≡ connections self.old) × (asks.new ≡ asks.old))) }
        ensures empty { IfSome result (λ served. IfNone served.next (at_slot (connections self.old) served.slot ≡ None)) }
        ensures own { IfSome result
            (λ served. IfSome served.next
            (λ next. HasTurn A.answers ⟦<T as Transport>⟧ (terms_at self.old served.slot served.ended)
            (state_at self.old served.slot asks.old) (state_at self.new served.slot asks.new) next)) }
        ensures others { IfSome result (λ served. OthersStay served.slot (connections self.old) (connections self.new)) }
        ensures run { HasRun A.answers ⟦<T as Transport>⟧ (record { table = self.old; asks = asks.old })
            (record { table = self.new; asks = asks.new }) }
        ensures step { IfSome result
            (λ served. IsTurnOf A.answers ⟦<T as Transport>⟧ (record { table = self.old; asks = asks.old }) (turn_of self.old now served)
            (record { table = self.new; asks = asks.new })) }
        ensures once { IfSome result (λ _. (queries : List QueryOutcome) × HasAsked A.answers asks.old queries asks.new) }
        ensures unasked { IfSome result (λ served. served.asked ≡ false → (served.ended ≡ now) × (asks.new ≡ asks.old)) }
        ensures read { IfSome result
            (λ served. served.asked ≡ true
            → (moment : ℕ) × C.shows clock.now moment × (served.ended ≡ max now moment)) }
        ensures turns { IfSome result (λ served. served.next ≡ Some Turn → has served.slot (ready_slots self.new) ≡ true) }
        ensures waits { IfSome result
            (λ served. served.next ≡ Some Room → has served.slot (waiting_slots self.new) ≡ true) }
        ensures keeps { KeepsLimits self.old self.new }
        ensures small { IfSome result
            (λ served. waiting_for Small self.new ≡ line_after served.slot (may_ask_at self.old served.slot)
            (is_size Small (waits_for served.next (size_at self.new served.slot))) (waiting_for Small self.old)) }
        ensures large { IfSome result
            (λ served. waiting_for Large self.new ≡ line_after served.slot (may_ask_at self.old served.slot)
            (is_size Large (waits_for served.next (size_at self.new served.slot))) (waiting_for Large self.old)) }
        ensures unchanged { IfNone result
            ((waiting_for Small self.new ≡ waiting_for Small self.old) × (waiting_for Large self.new ≡ waiting_for Large self.old)) }
    {
        let slot = self.ready.next()?;
        let may_ask = may_be_asked(&self.slots, &self.waiting, self.room, slot);
        let conditions = TurnConditions { may_ask, now };
        let turned = self.slots.turn(slot, asks, conditions, clock);
        let served = Served::of(slot, turned, now);
        if may_ask && served.next.is_some() {
            self.last_asked = slot;
        }
        let waits = self.slots.waits_for(slot, served.next);
        settle(&mut self.ready, slot, served.next);
        self.waiting.settle(slot, may_ask, waits);
        admit(&mut self.ready, &self.waiting, self.slots.owed, self.room);
        Some(served)
    }

    // Whether the connection at a slot has something to do: it has a turn, or waits for room.
    fn is_pending(&self, slot: usize) -> bool
        ensures { result ≡ is_pending self.now slot }
    {
        self.ready.has(slot) || self.waiting.has(slot)
    }

    // The connection at a slot leaves it.
    fn close(&mut self, slot: usize) -> Option<OpenConnection<T>>
        ensures taken { result ≡ at_slot (connections self.old) slot }
        ensures left { LeftOrStayed slot result self.old self.new }
        ensures len { length (connections self.new) ≡ length (connections self.old) }
        ensures goes { Goes self.old self.new }
    {
        let connection = self.slots.take(slot);
        admit(&mut self.ready, &self.waiting, self.slots.owed, self.room);
        connection
    }

    /// The connection at a slot leaves it, if its time is over: where it has failed, where its client has sent all, and at
    /// the deadline of its phase. It stays while it has a turn or waits for room, as what it waits for has come.
    pub fn close_overdue(&mut self, slot: usize, now: u64) -> Option<OpenConnection<T>>
        ensures overdue { IfSome result (λ connection. deadline (timeouts_of self.old) connection.phase ≤ now) }
        ensures due { IfSome result (λ _. is_pending self.old slot ≡ false) }
        ensures left { LeftOrStayed slot result self.old self.new }
        ensures in_time { IfNone result
            (is_pending self.old slot ≡ false → IfSome (at_slot (connections self.old) slot)
            (λ connection. now < deadline (timeouts_of self.old) connection.phase)) }
        ensures goes { Goes self.old self.new }
    {
        let phase = self.slots.phase(slot)?;
        if now < phase.deadline(&self.timeouts) || self.is_pending(slot) {
            return None;
        }
        self.close(slot)
    }

    /// The connection at a slot leaves it, if it is between requests or has sent a part of a head: for a worker that ends.
    pub fn close_unanswered(&mut self, slot: usize) -> Option<OpenConnection<T>>
        ensures unanswered { IfSome result (λ connection. is_unanswered connection.phase ≡ true) }
        ensures left { LeftOrStayed slot result self.old self.new }
        ensures answered { IfNone result
            (IfSome (at_slot (connections self.old) slot) (λ connection. is_unanswered connection.phase ≡ false)) }
        ensures goes { Goes self.old self.new }
    {
        let phase = self.slots.phase(slot)?;
        if !phase.is_unanswered() {
            return None;
        }
        self.close(slot)
    }

    // The rank of the connection at a slot. It has none while it has a turn or waits for room.
    fn rank_at(&self, slot: usize, pressure: Pressure) -> Option<u128>
        ensures { result ≡ rank_at pressure self.now slot }
    {
        if self.is_pending(slot) {
            return None;
        }
        match self.slots.state(slot) {
            Some((phase, owed)) => pressure.rank(phase, owed),
            None => None,
        }
    }

    // The slot of the connection that gives way first, if one may.
    fn first(&self, pressure: Pressure) -> Option<usize>
        ensures found { IfSome result (λ slot. IsFirst pressure self.now slot) }
        ensures none { IfNone result (NoneMay pressure self.now) }
    {
        let mut found = None;
        for slot in 0..self.slots.items.len() {
            found = first_of(found, slot, self.rank_at(slot, pressure));
        }
        match found {
            Some((slot, _)) => Some(slot),
            None => None,
        }
    }

    // The connection that gives way first leaves, if one may.
    fn give_way(&mut self, pressure: Pressure) -> Option<Closed<T>>
        ensures first { IfSome result (λ closed. IsFirst pressure self.old closed.slot) }
        ensures left { ClosedOrStayed result self.old self.new }
        ensures len { length (connections self.new) ≡ length (connections self.old) }
        ensures none { IfNone result (NoneMay pressure self.old) }
        ensures goes { Goes self.old self.new }
    {
        let slot = self.first(pressure)?;
        let connection = self.close(slot)?;
        Some(Closed { slot, connection })
    }

    /// Where all slots are taken, a connection without a turn leaves, if one may. Those that were opened, or have been between requests,
    /// for ten seconds or more come first, the longest first; then those whose head began a second ago or more, by when their last bytes
    /// came; then those that were opened, or have been between requests, for a second or more.
    pub fn close_for_slot(&mut self, now: u64) -> Option<Closed<T>>
        ensures full { IfSome result (λ _. IsFull self.old) }
        ensures first { IfSome result (λ closed. IsFirst (pressure.Slot now) self.old closed.slot) }
        ensures left { ClosedOrStayed result self.old self.new }
        ensures known { IfSome result (λ closed. closed.slot < length (connections self.new)) }
        ensures none { IfNone result (IsFull self.old → NoneMay (pressure.Slot now) self.old) }
        ensures goes { Goes self.old self.new }
    {
        if self.free_slot().is_some() {
            return None;
        }
        self.give_way(Pressure::Slot { now })
    }

    /// Where no descriptor is free for a further connection, the one leaves that would leave for a slot, if there is one.
    pub fn close_for_descriptor(&mut self, now: u64) -> Option<Closed<T>>
        ensures first { IfSome result (λ closed. IsFirst (pressure.Slot now) self.old closed.slot) }
        ensures left { ClosedOrStayed result self.old self.new }
        ensures none { IfNone result (NoneMay (pressure.Slot now) self.old) }
        ensures goes { Goes self.old self.new }
    {
        self.give_way(Pressure::Slot { now })
    }

    // Whether a connection waits for room in vain.
    fn lacks_room(&self) -> bool
        ensures { result ≡ lacks_room self.now }
    {
        let owed = self.slots.owed;
        let has_small = owed < share_of(AnswerSize::Small, self.room) as u128;
        let has_large = owed < share_of(AnswerSize::Large, self.room) as u128;
        !self.waiting.small.is_empty() && !has_small || !self.waiting.large.is_empty() && !has_large
    }

    // The need for room now: answers may stay less long, the more connections wait.
    fn for_room(&self, now: u64) -> Pressure
        ensures { result ≡ for_room now self.now }
    {
        Pressure::Room {
            now,
            rate: self.timeouts.rate,
            patience: patience_for(self.waiting.count()),
        }
    }

    /// Where a connection waits for room in vain, of those without a turn the slowest one leaves whose answer has been going for over a
    /// second and that took no byte for a second, or fewer than the least rate asks for, if there is one. The more wait, the less than
    /// a second counts, unless what is left of its answer is small.
    pub fn close_for_room(&mut self, now: u64) -> Option<Closed<T>>
        ensures wanted { IfSome result (λ _. lacks_room self.old ≡ true) }
        ensures none { IfNone result ((lacks_room self.old ≡ false) ⊎ NoneMay (for_room now self.old) self.old) }
        ensures first { IfSome result (λ closed. IsFirst (for_room now self.old) self.old closed.slot) }
        ensures left { ClosedOrStayed result self.old self.new }
        ensures goes { Goes self.old self.new }
    {
        if !self.lacks_room() {
            return None;
        }
        let pressure = self.for_room(now);
        self.give_way(pressure)
    }
}
