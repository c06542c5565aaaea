//! Laws of the definitions. A law is a function without arguments whose contract states it.

ghost use Rattle.refinement.specs.Steps.{BreaksSubmits, IsCheckpointOf, IsCrash, IsRetry, IsStart, IsSubmits, StopsCheckpoint};

use journalfile::Log;

/// The laws hold of any log, whatever its bytes and what a crash leaves of them.
pub fn calls_are_steps<L: Log>()
    ensures submits { IsSubmits L }
    ensures breaks { BreaksSubmits L }
    ensures retries { IsRetry L }
    ensures compacts { IsCheckpointOf L.content L.may_leave }
    ensures stops { StopsCheckpoint L }
    ensures crashes { IsCrash L.content L.may_leave }
    ensures starts { IsStart L.content L.may_leave }
{}
