ghost use Rattle.std.specs.Prelude.{◌≡◌, ◌<◌, true};
ghost use Rattle.turns.specs.Room.{may_be_asked};

use crate::answer_size::share_of;
use crate::slots::Slots;
use crate::{AnswerSize, Transport, WaitingQueues};

/// Whether a query of the connection at a slot may be answered: there is room for an answer of its size, and no other has waited longer.
/// Its size isn't looked at where there is room for each, and none waits.
pub(crate) fn may_be_asked<T: Transport + Drop>(
    slots: &Slots<T>,
    waiting: &WaitingQueues,
    room: usize,
    slot: usize,
) -> bool
    ensures value { result ≡ may_be_asked slots.now waiting.now room slot }
    ensures room { result ≡ true → slots.now.owed < room }
{
    if waiting.is_empty() && slots.owed < share_of(AnswerSize::Large, room) as u128 {
        return true;
    }
    let size = slots.next_size(slot);
    slots.owed < share_of(size, room) as u128 && waiting.is_next(slot, size)
}
