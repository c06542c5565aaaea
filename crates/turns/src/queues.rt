ghost use Rattle.std.specs.Prelude.{◌≡◌, ◌<◌, [], ℕ, List, Some, true};
ghost use Rattle.turns.specs.Queue.{has, joins};
ghost use Rattle.turns.specs.Room.{IsInvited, share_of};
ghost use Rattle.turns.specs.declared.answer_size.AnswerSize.TheVariants.{Small, Large};
ghost use Rattle.turns.specs.declared.turn.Next.TheVariants.{Turn};

use crate::answer_size::share_of;
use crate::{AnswerSize, Next, ReadyQueue, WaitingQueues};

/// A slot that had a turn comes to the end of the queue, where it has a further turn.
pub fn settle(ready: &mut ReadyQueue, slot: usize, next: Option<Next>)
    ensures joins { (slots : List ℕ) × (ready.new.order ≡ joins ready.old.order slots) }
    ensures turns { next ≡ Some Turn → slot < ready.old.slots → has slot ready.new.order ≡ true }
    ensures stays { (other : ℕ) → has other ready.old.order ≡ true → has other ready.new.order ≡ true }
    ensures slots { ready.new.slots ≡ ready.old.slots }
{
    if let Some(Next::Turn) = next {
        ready.add(slot);
    }
}

// Where there is room, the slot that has waited longest for it has a turn. It waits on until that is made.
fn invite(ready: &mut ReadyQueue, line: &ReadyQueue, has_room: bool)
    requires slots { line.now.slots ≡ ready.old.slots }
    ensures joins { (slots : List ℕ) × (ready.new.order ≡ joins ready.old.order slots) }
    ensures invited { has_room ≡ true → IsInvited line.now.order ready.new.order }
    ensures stays { (other : ℕ) → has other ready.old.order ≡ true → has other ready.new.order ≡ true }
    ensures slots { ready.new.slots ≡ ready.old.slots }
{
    if has_room && let Some(slot) = line.first() {
        ready.add(slot);
    }
}

/// While so many bytes are to be sent, the slots that have waited longest have turns, where there is room for answers of their
/// size.
pub fn admit(ready: &mut ReadyQueue, waiting: &WaitingQueues, owed: u128, room: usize)
    requires small_slots { waiting.now.small.slots ≡ ready.old.slots }
    requires large_slots { waiting.now.large.slots ≡ ready.old.slots }
    ensures joins { (slots : List ℕ) × (ready.new.order ≡ joins ready.old.order slots) }
    ensures small { owed < share_of Small room → IsInvited waiting.now.small.order ready.new.order }
    ensures large { owed < share_of Large room → IsInvited waiting.now.large.order ready.new.order }
    ensures stays { (other : ℕ) → has other ready.old.order ≡ true → has other ready.new.order ≡ true }
    ensures slots { ready.new.slots ≡ ready.old.slots }
{
    let has_small = owed < share_of(AnswerSize::Small, room) as u128;
    invite(ready, &waiting.small, has_small);
    let has_large = owed < share_of(AnswerSize::Large, room) as u128;
    invite(ready, &waiting.large, has_large);
}
