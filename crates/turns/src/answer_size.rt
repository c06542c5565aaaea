ghost use Rattle.std.specs.Prelude.{◌≡◌, ◌≤◌};
ghost use Rattle.turns.specs.Room.{patience_for, share_of};

use crate::pressure::PATIENCE_MILLIS;

/// How many bytes a small answer is reckoned to have, at most: as many as a tile of 512 by 512 pixels.
pub const SMALL_ANSWER_BYTES: u64 = 1_049_600;

/// How many connections wait for room, each time that so many more do, when an answer that is taken too slowly may stay less long.
pub const FEW_WAITING: u64 = 8;

/// For how many milliseconds such an answer may stay, at least.
pub const LEAST_PATIENCE_MILLIS: u64 = 100;

/// What an answer is reckoned as before it is made.
#[derive(Clone, Copy, Debug, PartialEq, Eq)]
pub enum AnswerSize {
    /// At most `SMALL_ANSWER_BYTES`, about.
    Small,
    /// More, or it isn't known yet.
    Large,
}

/// How many bytes of the room answers of a size may fill: a quarter of it is kept for small ones.
pub(crate) fn share_of(size: AnswerSize, room: usize) -> usize
    ensures value { result ≡ share_of size room }
    ensures within { result ≤ room }
{
    match size {
        AnswerSize::Small => room,
        AnswerSize::Large => room - room / 4,
    }
}

/// For how many milliseconds an answer may stay that is taken too slowly, where so many connections wait for room.
#[tactic(auto, unfolding(crate::specs::Room::patience_for))]
pub(crate) fn patience_for(waiting: u128) -> u64
    ensures { result ≡ patience_for waiting }
{
    let shorter = u128::from(PATIENCE_MILLIS) / (waiting / u128::from(FEW_WAITING) + 1);
    LEAST_PATIENCE_MILLIS.max(shorter as u64)
}
