//! Laws of the definitions. A law is a function without arguments whose contract states it.

ghost use Rattle.std.specs.Prelude.{◌≡◌, ◌+◌, ℕ};
ghost use Rattle.batches.specs.Batch.{State};
ghost use Rattle.compaction.specs.Compacted.{skipping};
ghost use Rattle.compaction.specs.Law.{AreLeftWhole, BecomeCompact, IsNotLonger, LeadToTheSame, StayCompact};

/// Compacted batches lead from any state to the same map as all of them, and with those that are left out to the same sequence.
pub fn compacted_leads_to_the_same()
    ensures { LeadToTheSame }
{}

/// Batches that were skipped are counted: none changes nothing, and some after others are as many as both.
pub fn skipped_are_counted()
    ensures none { (s : State) → skipping 0 s ≡ s }
    ensures more { (a b : ℕ) (s : State) → skipping (a + b) s ≡ skipping b (skipping a s) }
{}

/// What is left of a batch isn't longer than the batch.
pub fn compacted_is_not_longer()
    ensures { IsNotLonger }
{}

/// Of all commands that are left, one at most switches a layer, and none clears it or appends to it before one that clears it. Each batch
/// has a command, and none of its bytes is anything else.
pub fn nothing_left_is_undone()
    ensures { BecomeCompact }
{}

/// Batches of which that is true already are left as they are.
pub fn compact_is_left_whole()
    ensures whole { AreLeftWhole }
    ensures again { StayCompact }
{}
