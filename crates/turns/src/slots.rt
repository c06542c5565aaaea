ghost use Rattle.std.specs.Prelude.{◌≡◌, ◌⊎◌, ◌≤◌, ◌<◌, ◌+◌, ◌^◌, ℕ, None, Some, length, IfOk, IfSome, IfNone, MatchOption, IsSomeAnd, is_some, is_none, max, true, false};
ghost use Rattle.std.specs.List.{list_all};
ghost use Rattle.turns.specs.Connection.{IsTurn, connection_state, ended_at, owed_by};
ghost use Rattle.turns.specs.Owed.{owed_at, owed_in_all};
ghost use Rattle.turns.specs.Room.{size_of, waits_for};
ghost use Rattle.turns.specs.Slots.{at_slot, slot_state, OthersStay, HasTurn};

use crate::{
    AnswerSize, Next, OpenConnection, Phase, Transport, TurnClock, TurnConditions, TurnEnd,
};
use httpedge::Asks;
use std::alloc::{AllocError, Global};

/// The connections of a worker, each at its slot, and how many bytes of responses are to be sent to them in all.
#[derive(Drop)]
pub struct Slots<T: Drop> {
    /// The connection at each slot, if there is one.
    pub items: Vec<Option<OpenConnection<T>>>,
    /// How many bytes are to be sent in all.
    pub owed: u128,
}

// A connection has its turn. The result has the bytes that are to be sent to it before and after.
fn turn_of<T: Transport, A: Asks, C: TurnClock>(
    connection: &mut OpenConnection<T>,
    asks: &mut A,
    conditions: TurnConditions,
    clock: &C,
) -> (TurnEnd, u128, u128)
    ensures turn { IsTurn A.answers ⟦<T as Transport>⟧ (ended_at conditions result.0.ended)
        (connection_state connection.old asks.old) (connection_state connection.new asks.new) result.0.next }
    ensures later { conditions.now ≤ result.0.ended }
    ensures read { result.0.asked ≡ true → (moment : ℕ) × C.shows clock.now moment × (result.0.ended ≡ max conditions.now moment) }
    ensures unasked { result.0.asked ≡ false → (result.0.ended ≡ conditions.now) × (asks.new ≡ asks.old) }
    ensures before { result.1 ≡ owed_by connection.old }
    ensures after { result.2 ≡ owed_by connection.new }
    ensures small { result.2 < 2 ^ 66 }
{
    let before = connection.owed();
    let turned = connection.turn(asks, conditions, clock);
    (turned, before, connection.owed())
}

impl<T: Transport + Drop> Slots<T> {
    /// So many slots, with no connection at any.
    pub fn new(alloc: Global, slots: usize) -> Result<Self, AllocError>
        ensures len { IfOk result (λ made. length made.items.items ≡ slots) }
        ensures free { IfOk result (λ made. (slot : ℕ) → at_slot made.items.items slot ≡ None) }
        ensures owed { IfOk result (λ made. made.owed ≡ 0) }
        ensures counted { IfOk result (λ made. made.owed ≡ owed_in_all made.items.items) }
    {
        let mut items = Vec::with_capacity(alloc, slots)?;
        for _ in 0..slots {
            items.push(None)?;
        }
        Ok(Slots { items, owed: 0 })
    }

    /// The connection at a slot has its turn.
    pub fn turn<A: Asks, C: TurnClock>(
        &mut self,
        slot: usize,
        asks: &mut A,
        conditions: TurnConditions,
        clock: &C,
    ) -> Option<TurnEnd>
        requires counted { self.old.owed ≡ owed_in_all self.old.items.items }
        requires small { self.old.owed < 2 ^ 67 }
        ensures counted { self.new.owed ≡ owed_in_all self.new.items.items }
        ensures balance { self.new.owed + owed_at (at_slot self.old.items.items slot)
            ≡ self.old.owed + owed_at (at_slot self.new.items.items slot) }
        ensures small { owed_at (at_slot self.new.items.items slot) < 2 ^ 66 ⊎ (self.new.owed ≡ self.old.owed) }
        ensures len { length self.new.items.items ≡ length self.old.items.items }
        ensures others { OthersStay slot self.old.items.items self.new.items.items }
        ensures nobody { IfNone result ((self.new.items.items ≡ self.old.items.items) × (asks.new ≡ asks.old)) }
        ensures empty { IfNone result (at_slot self.old.items.items slot ≡ None) }
        ensures own { IfSome result
            (λ turned. HasTurn A.answers ⟦<T as Transport>⟧ (ended_at conditions turned.ended)
            (slot_state self.old.items.items slot asks.old) (slot_state self.new.items.items slot asks.new) turned.next) }
        ensures later { IfSome result (λ turned. conditions.now ≤ turned.ended) }
        ensures read { IfSome result
            (λ turned. turned.asked ≡ true
            → (moment : ℕ) × C.shows clock.now moment × (turned.ended ≡ max conditions.now moment)) }
        ensures unasked { IfSome result
            (λ turned. turned.asked ≡ false → (turned.ended ≡ conditions.now) × (asks.new ≡ asks.old)) }
    {
        if slot >= self.items.len() {
            return None;
        }
        let Some(connection) = &mut self.items[slot] else {
            return None;
        };
        let (turned, before, after) = turn_of(connection, asks, conditions, clock);
        self.owed = self.owed - before + after;
        Some(turned)
    }

    /// The connection at a slot leaves it.
    pub fn take(&mut self, slot: usize) -> Option<OpenConnection<T>>
        requires counted { self.old.owed ≡ owed_in_all self.old.items.items }
        ensures counted { self.new.owed ≡ owed_in_all self.new.items.items }
        ensures balance { self.new.owed + owed_at (at_slot self.old.items.items slot) ≡ self.old.owed }
        ensures len { length self.new.items.items ≡ length self.old.items.items }
        ensures others { OthersStay slot self.old.items.items self.new.items.items }
        ensures left { at_slot self.new.items.items slot ≡ None }
        ensures taken { result ≡ at_slot self.old.items.items slot }
        ensures nobody { IfNone result (self.new.items.items ≡ self.old.items.items) }
    {
        if slot >= self.items.len() {
            return None;
        }
        let connection = self.items[slot].take()?;
        self.owed -= connection.owed();
        Some(connection)
    }

    /// A connection comes to a free slot. Nothing is to be sent to it.
    pub fn put(&mut self, slot: usize, connection: OpenConnection<T>)
        requires counted { self.old.owed ≡ owed_in_all self.old.items.items }
        requires known { slot < length self.old.items.items }
        requires free { at_slot self.old.items.items slot ≡ None }
        requires fresh { owed_by connection ≡ 0 }
        ensures counted { self.new.owed ≡ owed_in_all self.new.items.items }
        ensures owed { self.new.owed ≡ self.old.owed }
        ensures len { length self.new.items.items ≡ length self.old.items.items }
        ensures others { OthersStay slot self.old.items.items self.new.items.items }
        ensures here { at_slot self.new.items.items slot ≡ Some connection }
    {
        self.items[slot] = Some(connection);
    }

    /// What the next answer of the connection at a slot is reckoned as.
    #[tactic(auto, unfolding(crate::specs::Room::size_of))]
    pub fn next_size(&self, slot: usize) -> AnswerSize
        ensures { result ≡ size_of (at_slot self.now.items.items slot) }
    {
        match self.items.get(slot) {
            Some(Some(connection)) => connection.exchange.next_size(),
            _ => AnswerSize::Large,
        }
    }

    /// For which room the connection at a slot waits, that waits for this after its turn.
    pub fn waits_for(&self, slot: usize, next: Option<Next>) -> Option<AnswerSize>
        ensures { result ≡ waits_for next (size_of (at_slot self.now.items.items slot)) }
    {
        match next {
            Some(Next::Room) => Some(self.next_size(slot)),
            _ => None,
        }
    }

    /// The phase of the connection at a slot, and how many bytes are to be sent to it, if there is one.
    pub fn state(&self, slot: usize) -> Option<(Phase, u128)>
        ensures { MatchOption result (at_slot self.now.items.items slot ≡ None)
            (λ state. IsSomeAnd (at_slot self.now.items.items slot)
            (λ connection. (connection.phase ≡ state.0) × (owed_by connection ≡ state.1))) }
    {
        match self.items.get(slot) {
            Some(Some(connection)) => Some((connection.phase, connection.owed())),
            _ => None,
        }
    }

    /// The phase of the connection at a slot, if there is one.
    pub fn phase(&self, slot: usize) -> Option<Phase>
        ensures { MatchOption result (at_slot self.now.items.items slot ≡ None)
            (λ phase. IsSomeAnd (at_slot self.now.items.items slot) (λ connection. connection.phase ≡ phase)) }
    {
        match self.items.get(slot) {
            Some(Some(connection)) => Some(connection.phase),
            _ => None,
        }
    }

    /// Whether no slot has a connection.
    pub fn is_empty(&self) -> bool
        ensures { result ≡ list_all is_none self.now.items.items }
    {
        self.items.iter().all(|item| item.is_none())
    }

    /// The first slot without a connection.
    pub fn free(&self) -> Option<usize>
        ensures known { IfSome result (λ slot. slot < length self.now.items.items) }
        ensures free { IfSome result (λ slot. at_slot self.now.items.items slot ≡ None) }
        ensures full { IfNone result
            ((slot : ℕ) → slot < length self.now.items.items → is_some (at_slot self.now.items.items slot) ≡ true) }
    {
        for slot in 0..self.items.len() {
            if self.items[slot].is_none() {
                return Some(slot);
            }
        }
        None
    }
}
