ghost use Rattle.std.specs.Prelude.{◌≡◌};
ghost use Rattle.vertices.specs.Chain.{chain_end};

use geom::World;
use mapdefs::BlockBox;

/// The vertices of a part that follow on the first one of a block, and the block's box.
#[derive(Clone, Copy)]
pub struct Block<'a> {
    pub area: BlockBox,
    pub vertices: &'a [World],
}

/// A ring or a line with no more vertices is cheaper to follow vertex by vertex than by its blocks' boxes.
pub const FEW_VERTICES: usize = 8;

/// The last vertex of a chain, from its first and those that follow.
pub fn last_of(from: World, rest: &[World]) -> World
    ensures { result ≡ chain_end from rest.now }
{
    match rest.last() {
        Some(last) => *last,
        None => from,
    }
}
