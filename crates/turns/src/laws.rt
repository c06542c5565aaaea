//! Laws of the definitions. A law is a function without arguments whose contract states it.

ghost use Rattle.turns.specs.Pressure.{YieldsWithoutTurn};
ghost use Rattle.turns.specs.Queue.{Fair};
ghost use Rattle.turns.specs.Runs.{KeepsUntilServed, OverdueWithoutTurn, RoomInvites, RoomServes, RunsAnswer, RunsServe, TurnsStay};

use crate::Transport;
use httpedge::Asks;

/// A slot that is ready when another is served is served before that one is served again.
pub fn fair()
    ensures { Fair }
{}

/// Whatever steps a table makes that had no connection: each connection at a slot is the one that came there last. It was sent
/// what answers the bytes of its client. It has a turn, waits for room, or has nothing to do until an event comes for it.
pub fn runs_answer<A: Asks, T: Transport>()
    ensures { RunsAnswer A.answers ⟦<T as Transport>⟧ }
{}

/// A slot that has a turn has it after the turns of those before it in the queue, and no others, whatever steps are made.
pub fn runs_serve<A: Asks, T: Transport>()
    ensures { RunsServe A.answers ⟦<T as Transport>⟧ }
{}

/// A slot that has a turn is served, or has its turn still, whatever steps are made: no event is forgotten.
pub fn turns_stay<A: Asks, T: Transport>()
    ensures { TurnsStay A.answers ⟦<T as Transport>⟧ }
{}

/// A slot that waits for room has it after those that waited before it for an answer of its size, and no others, whatever steps are made: of
/// so many turns that are given room, and one more, one is its own.
pub fn room_serves<A: Asks, T: Transport>()
    ensures { RoomServes A.answers ⟦<T as Transport>⟧ }
{}

/// While there is room for an answer of a size, the slot that has waited longest for it has a turn: each connection that leaves and each
/// answer that ends, and leaves room, gives it one.
pub fn room_invites<T>()
    ensures { RoomInvites T }
{}

/// A connection that gives way to others has no turn, and doesn't wait for room.
pub fn yields_without_turn<T>()
    ensures { YieldsWithoutTurn T }
{}

/// A connection that leaves because its time is over has no turn, and doesn't wait for room.
pub fn overdue_without_turn<T>()
    ensures { OverdueWithoutTurn T }
{}

/// A connection that has a turn is served, whatever steps are made before, unless its worker ends: it doesn't leave for another reason.
pub fn keeps_until_served<A: Asks, T: Transport>()
    ensures { KeepsUntilServed A.answers ⟦<T as Transport>⟧ }
{}
