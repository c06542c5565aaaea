//! A log that another may take the place of.

ghost use Rattle.std.specs.Prelude.{◌≡◌, ◌⊎◌, [], ℕ, List, IfErr, IfOk, OnOk};
ghost use Rattle.journalfile.specs.Log.{NoOther, Only, Elapses};
ghost use Rattle.journalfile.specs.Replacing.{IsUnreplaced};

use crate::log::Log;
use crate::reading::NotCompacted;

/// Why no other log took the place of one.
#[derive(Drop)]
pub enum ReplaceFault<F> {
    /// Nothing was replaced: the log is as it was.
    NotReplaced(F),
    /// It isn't known which of both a crash leaves. The journal on it has to be opened again.
    Failed(F),
}

/// A log whose bytes can be replaced by those of another at once: a crash at any moment leaves the bytes of one of them. Each clause
/// holds of logs that are reliable.
pub trait Replaceable: Log {
    /// A new log without bytes, which may take the place of this one.
    fn beside(&mut self) -> Result<Self, Self::Failure>
        ensures empty { Self.reliable → IfOk result (λ log. Self.content log ≡ []) }
        ensures content { Self.reliable → Self.content self.new ≡ Self.content self.old }
        ensures crash { Self.reliable → NoOther (Self.may_leave self.old) (Self.may_leave self.new) }
        ensures time { Self.reliable → Elapses (Self.moment self.old) (Self.moment self.new)
            (Self.left_since self.old) (Self.left_since self.new) (Self.may_leave self.new) };

    /// Another log, which is synced, takes the place of this one.
    fn replace(&mut self, successor: Self) -> Result<(), ReplaceFault<Self::Failure>>
        requires synced { Self.reliable → Only (Self.content successor) (Self.may_leave successor) }
        ensures replaced { Self.reliable → OnOk result (Self.content self.new ≡ Self.content successor) }
        ensures durable { Self.reliable → OnOk result (Only (Self.content successor) (Self.may_leave self.new)) }

        // Where it is known that nothing was replaced, the log goes on to be used.
        ensures unreplaced { Self.reliable → IfErr result (IsUnreplaced
            (Self.content self.old) (Self.content self.new) (Self.may_leave self.old) (Self.may_leave self.new)) }
        ensures crash { Self.reliable → (c : List ℕ) → Self.may_leave self.new c → Self.may_leave self.old c ⊎ (c ≡ Self.content successor) }
        ensures time { Self.reliable → Elapses (Self.moment self.old) (Self.moment self.new)
            (Self.left_since self.old) (Self.left_since self.new) (Self.may_leave self.new) };

    /// Gives up a log that took no place.
    fn discard(self);

    /// Reports to who runs the program why the journal on it isn't compacted.
    fn report(&self, why: NotCompacted);
}
