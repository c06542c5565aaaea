ghost use Rattle.std.specs.Prelude.{◌≡◌, ◌≤◌, ◌<◌, ◌∷◌, ◌++◌, [], ◌==◌, length, false, IfOk, IfSome, MatchOption, true, ℕ, List};
ghost use Rattle.turns.specs.Queue.{has, joined};
ghost use Rattle.turns.specs.Room.{is_next, without};

use std::alloc::{AllocError, Global};
use std::collections::VecDeque;
use std::marker::Model;

/// Slots that have a turn next, or that wait for room, in order: each is in it once, after those that came before.
#[derive(Drop)]
pub struct ReadyQueue {
    order: VecDeque<usize>,
    is_in: Vec<bool>,
}

impl Model for ReadyQueue {
    ghost use Rattle.std.specs.Prelude.{length};
    ghost use Rattle.std.specs.VecDeque.{deque_len, deque_capacity};
    ghost use Rattle.turns.specs.Queue.{Queue, IsQueue};

    ghost Value = { Queue };

    ghost view = { λ q. record { slots = length q.is_in.items; order = q.order.items } };

    ghost invariant = { λ q. IsQueue q.is_in.items q.order.items (deque_len q.order) (deque_capacity q.order) };
}

impl ReadyQueue {
    /// An empty one for so many slots, which are numbered from 0. It takes the memory for all of them, and no more later.
    pub fn new(alloc: Global, slots: usize) -> Result<Self, AllocError>
        ensures { IfOk result (λ queue. queue ≡ record { slots = slots; order = [] }) }
    {
        Ok(ReadyQueue {
            order: VecDeque::with_capacity(alloc, slots)?,
            is_in: Vec::from_elem(alloc, false, slots)?,
        })
    }

    // A slot that isn't in it comes to its end.
    fn enqueue(&mut self, slot: usize)
        requires known { slot < self.old.slots }
        requires out { has slot self.old.order ≡ false }
        ensures { self.new ≡ record self.old { order = self.old.order ++ slot ∷ [] } }
    {
        self.is_in[slot] = true;
        self.order.push_back_reserved(slot);
    }

    /// A slot has a turn. If it is in the queue it keeps its position, else it comes to the end.
    pub fn add(&mut self, slot: usize)
        ensures joins { slot < self.old.slots → self.new ≡ record self.old { order = joined self.old.order slot } }
        ensures none { self.old.slots ≤ slot → self.new ≡ self.old }
        ensures stays { (other : ℕ) → has other self.old.order ≡ true → has other self.new.order ≡ true }
    {
        if slot < self.is_in.len() && !self.is_in[slot] {
            self.enqueue(slot);
        }
    }

    /// Whether a slot is in it.
    pub fn has(&self, slot: usize) -> bool
        ensures { result ≡ has slot self.now.order }
    {
        slot < self.is_in.len() && self.is_in[slot]
    }

    /// Whether no slot has a turn.
    pub fn is_empty(&self) -> bool
        ensures { result ≡ (length self.now.order == 0) }
    {
        self.order.is_empty()
    }

    /// How many slots have a turn.
    pub fn len(&self) -> usize
        ensures { result ≡ length self.now.order }
    {
        self.order.len()
    }

    /// The slot that has waited longest.
    pub fn first(&self) -> Option<usize>
        ensures first { MatchOption result (self.now.order ≡ [])
            (λ slot. (rest : List ℕ) × (self.now.order ≡ slot ∷ rest)) }
        ensures below { IfSome result (λ slot. slot < self.now.slots) }
    {
        let slot = *self.order.front()?;
        if slot < self.is_in.len() {
            Some(slot)
        } else {
            None
        }
    }

    /// Whether no slot has waited longer than this one.
    pub fn is_next(&self, slot: usize) -> bool
        ensures { result ≡ is_next slot self.now.order }
    {
        match self.first() {
            Some(first) => first == slot,
            None => true,
        }
    }

    /// A slot leaves the queue, if it has waited longest.
    pub fn leave(&mut self, slot: usize)
        ensures order { self.new.order ≡ without slot self.old.order }
        ensures slots { self.new.slots ≡ self.old.slots }
    {
        if self.first() == Some(slot) {
            let _ = self.next();
        }
    }

    /// The slot that has waited longest, which leaves the queue.
    pub fn next(&mut self) -> Option<usize>
        ensures first { MatchOption result ((self.old.order ≡ []) × (self.new.order ≡ []))
            (λ slot. self.old.order ≡ slot ∷ self.new.order) }
        ensures below { IfSome result (λ slot. slot < self.old.slots) }
        ensures slots { self.new.slots ≡ self.old.slots }
    {
        let slot = self.order.pop_front()?;
        if slot < self.is_in.len() {
            self.is_in[slot] = false;
        }
        Some(slot)
    }
}
