//! The log of a journal.

ghost use Rattle.std.specs.Prelude.{◌≡◌, ◌<◌, ◌≤◌, [], ◌++◌, List, ℕ, length, take, drop, IfOk, OnOk};
ghost use Rattle.journalfile.specs.Log.{Torn, Cut, Follows, NoOther, Only, Elapses};

use crate::failure::LogFailure;

/// Bytes that grow at their end and outlive a crash, as a file on a disk. Each call may fail. A crash may come at any moment, also
/// within a call. Each clause holds of a log that is reliable.
pub trait Log {
    /// The failure of a call. Nothing but a log makes one.
    type Failure: Drop + LogFailure;

    /// The log is as its clauses state. Of a file of the system that isn't known.
    ghost reliable: { Type 0 };

    /// The bytes that reads return.
    ghost content: { Self → List ℕ };

    /// The bytes that a crash at this moment may leave.
    ghost may_leave: { Self → List ℕ → Type 0 };

    /// The moment, as a number that doesn't fall.
    ghost moment: { Self → ℕ };

    /// The bytes that a crash at some moment from that one on might have left, during a call or between two.
    ghost left_since: { Self → ℕ → List ℕ → Type 0 };

    /// The bytes that a crash may leave in place of appended bytes, where it doesn't leave the first of them.
    ghost garbled: { List ℕ → Type 0 };

    /// Reads the next bytes from an offset, and returns how many: 0 only where there is no room, or no byte at or behind the offset.
    fn read_at(&mut self, offset: usize, room: &mut [u8]) -> Result<usize, Self::Failure>
        ensures count { IfOk result (λ n. n ≤ length room.new) }
        ensures bytes { reliable → IfOk result (λ n. take n room.new ≡ take n (drop offset (content self.old))) }
        ensures end { reliable → IfOk result (λ n. n ≡ 0 → 0 < length room.new → drop offset (content self.old) ≡ []) }
        ensures content { reliable → content self.new ≡ content self.old }
        ensures crash { reliable → NoOther (may_leave self.old) (may_leave self.new) }
        ensures time { reliable → Elapses (moment self.old) (moment self.new) (left_since self.old) (left_since self.new) (may_leave self.new) };

    /// Adds bytes at the end. Until a sync, a crash may leave some of them.
    fn append(&mut self, bytes: &[u8]) -> Result<(), Self::Failure>
        ensures appended { reliable → OnOk result (content self.new ≡ content self.old ++ bytes.now) }
        ensures crash { reliable → Follows (Torn garbled bytes.now) (may_leave self.old) (may_leave self.new) }
        ensures time { reliable → Elapses (moment self.old) (moment self.new) (left_since self.old) (left_since self.new) (may_leave self.new) };

    /// Cuts off all bytes from an offset on.
    fn cut(&mut self, end: usize) -> Result<(), Self::Failure>
        requires { reliable → end ≤ length (content self.old) }
        ensures cut { reliable → OnOk result (content self.new ≡ take end (content self.old)) }
        ensures crash { reliable → Follows (Cut end) (may_leave self.old) (may_leave self.new) }
        ensures time { reliable → Elapses (moment self.old) (moment self.new) (left_since self.old) (left_since self.new) (may_leave self.new) };

    /// Keeps all bytes: after it, a crash leaves the bytes that reads return.
    fn sync(&mut self) -> Result<(), Self::Failure>
        ensures durable { reliable → OnOk result (Only (content self.old) (may_leave self.new)) }
        ensures content { reliable → content self.new ≡ content self.old }
        ensures crash { reliable → NoOther (may_leave self.old) (may_leave self.new) }
        ensures time { reliable → Elapses (moment self.old) (moment self.new) (left_since self.old) (left_since self.new) (may_leave self.new) };

    /// This moment is one of those since an earlier one.
    ghost counts_now: { reliable → (log : Self) (t : ℕ) (c : List ℕ) → t ≤ moment log → may_leave log c → left_since log t c };

    /// Since this moment there is no other.
    ghost only_now: { reliable → (log : Self) (c : List ℕ) → left_since log (moment log) c → may_leave log c };
}
