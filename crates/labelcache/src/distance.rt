ghost use Rattle.std.specs.Prelude.{◌+◌, ◌*◌, ◌<◌, ◌↔◌, IsTrue};
ghost use Rattle.labelcache.specs.Candidate.{square};

/// Whether the distance of two pixels that are so far apart across and down is less than a distance.
#[tactic(auto, using(crate::proofs::Squares::far_across, crate::proofs::Squares::far_down))]
pub fn is_within(across: u64, down: u64, distance: u16) -> bool
    ensures { IsTrue result ↔ (square across + square down < square distance) }
{
    let distance = u64::from(distance);
    across < distance && down < distance && across * across + down * down < distance * distance
}
