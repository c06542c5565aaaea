//! Laws of the definitions. A law is a function without arguments whose contract states it.

ghost use Rattle.eventloop.specs.Working.{EventsServe};

use httpedge::Asks;
use turns::Transport;

/// Each connection that a poller reports has its turn after that, or has it still to come, whatever steps are made. With
/// `turns::laws::runs_answer`, of one that has no turn and doesn't wait for room: its last read or its last write would have waited, and a
/// later event hasn't been reported yet.
pub fn events_serve<A: Asks, T: Transport>()
    ensures { EventsServe A.answers ⟦<T as Transport>⟧ }
{}
