ghost use Rattle.std.specs.Prelude.{◌≡◌, ◌+◌, ◌++◌, ◌<◌, ◌&&◌, ◌==◌, [], length, IfOk};
ghost use Rattle.turns.specs.Queue.{has};
ghost use Rattle.turns.specs.Room.{is_next, is_size, line_after, line_of};
ghost use Rattle.turns.specs.declared.answer_size.AnswerSize.TheVariants.{Small, Large};

use crate::{AnswerSize, ReadyQueue};
use std::alloc::{AllocError, Global};

/// The slots whose connections wait for room, by what their answers are reckoned as.
#[derive(Drop)]
pub struct WaitingQueues {
    /// Those whose answers are small, in order.
    pub small: ReadyQueue,
    /// The others, in order.
    pub large: ReadyQueue,
}

impl WaitingQueues {
    /// Empty ones for so many slots. They take the memory for all of them, and no more later.
    pub fn new(alloc: Global, slots: usize) -> Result<Self, AllocError>
        ensures small { IfOk result (λ waiting. waiting.small ≡ record { slots = slots; order = [] }) }
        ensures large { IfOk result (λ waiting. waiting.large ≡ record { slots = slots; order = [] }) }
    {
        Ok(WaitingQueues {
            small: ReadyQueue::new(alloc, slots)?,
            large: ReadyQueue::new(alloc, slots)?,
        })
    }

    /// Whether no slot waits.
    pub fn is_empty(&self) -> bool
        ensures { result ≡ ((length self.now.small.order == 0) && (length self.now.large.order == 0)) }
    {
        self.small.is_empty() && self.large.is_empty()
    }

    /// Whether a slot waits.
    pub fn has(&self, slot: usize) -> bool
        ensures { result ≡ has slot (self.now.small.order ++ self.now.large.order) }
    {
        self.small.has(slot) || self.large.has(slot)
    }

    /// How many slots wait.
    pub fn count(&self) -> u128
        ensures { result ≡ length self.now.small.order + length self.now.large.order }
    {
        self.small.len() as u128 + self.large.len() as u128
    }

    /// Whether a slot is the next that may have room for an answer of a size.
    pub fn is_next(&self, slot: usize, size: AnswerSize) -> bool
        ensures { result ≡ is_next slot (line_of size self.now) }
    {
        match size {
            AnswerSize::Small => self.small.is_next(slot),
            AnswerSize::Large => self.large.is_next(slot),
        }
    }

    /// After a turn of a slot: it leaves where it had room, and comes to the end of those that wait for the room for which it waits.
    pub fn settle(&mut self, slot: usize, had_room: bool, waits: Option<AnswerSize>)
        requires small { slot < self.old.small.slots }
        requires large { slot < self.old.large.slots }
        ensures small { self.new.small.order ≡ line_after slot had_room (is_size Small waits) self.old.small.order }
        ensures large { self.new.large.order ≡ line_after slot had_room (is_size Large waits) self.old.large.order }
        ensures small_slots { self.new.small.slots ≡ self.old.small.slots }
        ensures large_slots { self.new.large.slots ≡ self.old.large.slots }
    {
        if had_room {
            self.small.leave(slot);
            self.large.leave(slot);
        }
        match waits {
            Some(AnswerSize::Small) => self.small.add(slot),
            Some(AnswerSize::Large) => self.large.add(slot),
            None => {}
        }
    }
}
