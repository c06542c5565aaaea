ghost use Rattle.std.specs.Prelude.{◌≡◌, ◌*◌, ◌≤◌};
ghost use Rattle.geom.specs.Side.{IsPictureSide};

use geom::PictureSide;
use viewport::Stretch;

/// So many columns and rows of a smoothed picture from one on.
#[derive(Clone, Copy)]
pub struct Tile {
    pub column: u16,
    pub columns: u16,
    pub row: u16,
    pub rows: u16,
}

/// The fine pixels of so many pixels of a side from one on.
pub fn stretch(factor: u8, first: u16, count: u16) -> Stretch
    requires factor { factor ≤ 4 }
    requires first { first ≤ 2048 }
    requires count { IsPictureSide (factor * count) }
    ensures first { result.first ≡ factor * first }
    ensures count { result.count ≡ factor * count }
{
    let times = u16::from(factor);
    Stretch {
        first: times * first,
        count: PictureSide::with_last(times * count - 1),
    }
}
