ghost use Rattle.std.specs.Prelude.{◌≡◌};
ghost use Rattle.turns.specs.Pressure.{answer_rank, first_of, head_rank, idle_rank, rank};
ghost use Rattle.turns.specs.Room.{patience_with};

use crate::Phase;
use crate::answer_size::SMALL_ANSWER_BYTES;

/// For how many milliseconds a connection does the same, at least, until it may give way: it was opened or is between requests, sends a
/// head, or takes an answer.
pub const PATIENCE_MILLIS: u64 = 1_000;

/// After how many milliseconds a connection that was opened or is between requests gives way before each that sends a head.
pub const LONG_WAIT_MILLIS: u64 = 10_000;

// The rank of the first head, behind each connection that has waited for long.
const FIRST_HEAD_RANK: u128 = 1 << 64;

// The rank of the first connection that has waited for less, behind each head.
const FIRST_SHORT_WAIT_RANK: u128 = 1 << 65;

/// Why connections are closed before their time is over.
#[derive(Clone, Copy, Debug)]
pub enum Pressure {
    /// A slot or a descriptor for a further connection, now.
    Slot { now: u64 },
    /// Room for a further answer, now, where answers are to be taken at this rate, in bytes per millisecond, and may stay for so many
    /// milliseconds that aren't.
    Room { now: u64, rate: u64, patience: u64 },
}

impl Pressure {
    /// The rank of a connection to which so many bytes are to be sent among those that may give way, if it is one: the lowest gives
    /// way first.
    pub(crate) fn rank(self, phase: Phase, owed: u128) -> Option<u128>
        ensures { result ≡ rank self phase owed }
    {
        match (self, phase) {
            (Pressure::Slot { now }, Phase::Opened { since } | Phase::Idle { since }) => {
                idle_rank(now.saturating_sub(since), since)
            }
            (Pressure::Slot { now }, Phase::Head { since, moved }) => {
                head_rank(now.saturating_sub(since), moved)
            }
            (
                Pressure::Room {
                    now,
                    rate,
                    patience,
                },
                Phase::Answer { since, moved, sent },
            ) => {
                let still = now.saturating_sub(moved);
                let patience = patience_with(patience, owed);
                let taken = Taken { still, sent };
                answer_rank(rate, patience, now.saturating_sub(since), taken)
            }
            _ => None,
        }
    }
}

// How long ago the last bytes of an answer were taken, and how many were in all.
#[derive(Clone, Copy)]
struct Taken {
    still: u64,
    sent: u64,
}

// For how many milliseconds an answer may stay of which so many bytes are left.
fn patience_with(patience: u64, owed: u128) -> u64
    ensures { result ≡ patience_with patience owed }
{
    if owed > u128::from(SMALL_ANSWER_BYTES) {
        patience
    } else {
        PATIENCE_MILLIS
    }
}

// The rank of a connection that was opened, or is between requests, since this moment, which is so long ago.
fn idle_rank(passed: u64, since: u64) -> Option<u128>
    ensures { result ≡ idle_rank passed since }
{
    if passed < PATIENCE_MILLIS {
        None
    } else if passed < LONG_WAIT_MILLIS {
        Some(FIRST_SHORT_WAIT_RANK + u128::from(since))
    } else {
        Some(u128::from(since))
    }
}

// The rank of a head that began so long ago, and whose last bytes came at this moment.
fn head_rank(passed: u64, moved: u64) -> Option<u128>
    ensures { result ≡ head_rank passed moved }
{
    if passed < PATIENCE_MILLIS {
        None
    } else {
        Some(FIRST_HEAD_RANK + u128::from(moved))
    }
}

// The rank of an answer that began so long ago, and of which this was taken.
fn answer_rank(rate: u64, patience: u64, passed: u64, taken: Taken) -> Option<u128>
    ensures { result ≡ answer_rank rate patience passed taken }
{
    let Taken { still, sent } = taken;
    if passed > patience && (still > patience || sent / passed < rate) {
        Some(u128::from(sent / passed))
    } else {
        None
    }
}

// The lesser of two ranks, with their slots.
pub(crate) fn first_of(
    found: Option<(usize, u128)>,
    slot: usize,
    rank: Option<u128>,
) -> Option<(usize, u128)>
    ensures { result ≡ first_of found slot rank }
{
    match (found, rank) {
        (Some((_, least)), Some(rank)) if rank < least => Some((slot, rank)),
        (None, Some(rank)) => Some((slot, rank)),
        _ => found,
    }
}
