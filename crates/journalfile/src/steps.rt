//! Steps of a log that are synced at once.

ghost use Rattle.std.specs.Prelude.{◌≡◌, ◌≤◌, ◌++◌, length, take, OnOk};
ghost use Rattle.keepers.specs.Crashes.{LeavesOnly};
ghost use Rattle.journalfile.specs.Log.{Only};
ghost use Rattle.journalfile.specs.Steps.{MayAppend, MayCut};

use crate::log::Log;

// Adds bytes, which each crash leaves from then on.
pub(crate) fn append_synced<L: Log>(log: &mut L, bytes: &[u8]) -> Result<(), L::Failure>
    ensures added { L.reliable → OnOk result (L.content log.new ≡ L.content log.old ++ bytes.now) }
    ensures durable { L.reliable → OnOk result (Only (L.content log.new) (L.may_leave log.new)) }
    ensures any_moment { L.reliable → LeavesOnly L.moment L.left_since log.old log.new (MayAppend L.garbled bytes.now (L.may_leave log.old)) }
{
    log.append(bytes)?;
    log.sync()
}

// Cuts bytes off, which no crash brings back from then on.
pub(crate) fn cut_synced<L: Log>(log: &mut L, end: usize) -> Result<(), L::Failure>
    requires { L.reliable → end ≤ length (L.content log.old) }
    ensures shortened { L.reliable → OnOk result (L.content log.new ≡ take end (L.content log.old)) }
    ensures durable { L.reliable → OnOk result (Only (L.content log.new) (L.may_leave log.new)) }
    ensures any_moment { L.reliable → LeavesOnly L.moment L.left_since log.old log.new (MayCut end (L.may_leave log.old)) }
{
    log.cut(end)?;
    log.sync()
}
