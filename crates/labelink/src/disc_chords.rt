ghost use Rattle.std.specs.Prelude.{◌≡◌, ◌<◌, ◌≤◌, ◌^◌, ◌+◌, ◌*◌, nat_lt, length, slice_index_or, unsigned_abs, IfOk};
ghost use Rattle.std.specs.Option.{MatchOption};
ghost use Rattle.geom.specs.Range.{IsBelow};
ghost use Rattle.labelink.specs.Disc.{IsHalfChord};

use std::alloc::{AllocError, Global};
use std::marker::Model;

/// The chords of a disc of pixels: how far it reaches to both sides in a row, by how far the row lies from its centre. So no
/// root is computed for a run of ink.
#[derive(Drop)]
pub struct DiscChords {
    reach: u8,
    halves: Vec<u8>,
}

impl Model for DiscChords {
    ghost use Rattle.std.specs.Prelude.{ℕ};
    ghost use Rattle.labelink.specs.Disc.{AreHalfChords};

    ghost Value = { ℕ };

    ghost view = { λ c. c.reach };

    ghost invariant = { λ c. AreHalfChords c.reach c.halves.items };
}

impl DiscChords {
    /// The chords of the disc of all pixels that are at most so many pixels away.
    pub fn new(alloc: Global, reach: u8) -> Result<Self, AllocError>
        ensures { IfOk result (λ chords. chords ≡ reach) }
    {
        let mut halves = Vec::new(alloc);
        let past = u16::from(reach) + 1;
        for down in 0..past {
            halves.push(half_chord(reach, down))?;
        }
        Ok(DiscChords { reach, halves })
    }

    /// How far the disc reaches.
    pub fn reach(&self) -> u8
        ensures { result ≡ self.now }
    {
        self.reach
    }

    /// Half the chord of the row so many rows away, if the disc has pixels there.
    pub fn half(&self, down: i64) -> Option<u8>
        requires { IsBelow (2 ^ 49) down }
        ensures { MatchOption result (self.now < unsigned_abs down) (λ half. IsHalfChord self.now (unsigned_abs down) half) }
    {
        let down = down.unsigned_abs() as usize;
        let halves = self.halves.as_slice();
        if down >= halves.len() {
            return None;
        }
        Some(half_at(halves, down))
    }
}

// The half chord at an index.
fn half_at(halves: &[u8], down: usize) -> u8
    requires { down < length halves.now }
    ensures { result ≡ slice_index_or halves.now down 0 }
{
    halves[down]
}

// The square of a number of pixels.
fn square(pixels: u16) -> u32
    requires { pixels ≤ 256 }
    ensures value { result ≡ pixels * pixels }
    ensures range { result ≤ 65536 }
{
    u32::from(pixels) * u32::from(pixels)
}

// Whether so many pixels across and so many down lead out of a disc.
fn is_beyond(reach: u8, across: u16, down: u16) -> bool
    requires across { across ≤ 256 }
    requires down { down ≤ 256 }
    ensures { result ≡ nat_lt (reach * reach) (across * across + down * down) }
{
    square(u16::from(reach)) < square(across) + square(down)
}

// Half the chord of the row so many rows away.
fn half_chord(reach: u8, down: u16) -> u8
    requires { down ≤ reach }
    ensures { IsHalfChord reach down result }
{
    for half in 0..reach {
        if is_beyond(reach, u16::from(half) + 1, down) {
            return half;
        }
    }
    reach
}
