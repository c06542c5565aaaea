ghost use Rattle.std.specs.Prelude.{◌≡◌, ◌∷◌, [], take, drop, length, IfOk};
ghost use Rattle.mapdefs.specs.Blocks.{AreBlockBoxes};
ghost use Rattle.mapdefs.specs.declared.block_box.TheConstants.{BLOCK_EDGES};

use crate::chain::Chain;
use crate::{BLOCK_EDGES, BlockBox, Shared};
use geom::World;
use std::alloc::{AllocError, Global};
use std::marker::Model;
use std::slice;

/// A part of a feature: its vertices in order, and the box of each block of them. Contracts see the list of the
/// vertices. One vertex takes no memory beside the part, and copies share any other number.
#[derive(Drop)]
pub struct Part {
    vertices: Vertices,
}

#[derive(Drop)]
enum Vertices {
    One(World),
    Many(Shared<Chain>),
}

impl Model for Part {
    ghost use Rattle.std.specs.Prelude.{List};
    ghost use Rattle.geom.specs.World.{Place};
    ghost use Rattle.mapdefs.specs.Vertices.{vertices_of};

    ghost Value = { List Place };

    ghost view = { λ p. vertices_of p.vertices };
}

impl Part {
    /// The part of one vertex.
    pub fn at(place: World) -> Self
        ensures { result ≡ place ∷ [] }
    {
        Part {
            vertices: Vertices::One(place),
        }
    }

    /// The part of these vertices, which are taken over as they are. It takes memory for a box of each block.
    pub fn of(alloc: Global, vertices: Vec<World>) -> Result<Self, AllocError>
        ensures { IfOk result (λ part. part ≡ vertices.items) }
    {
        if let [place] = vertices.as_slice() {
            return Ok(Part::at(*place));
        }
        let chain = Shared::new(alloc, Chain::of(alloc, vertices)?)?;
        Ok(Part {
            vertices: Vertices::Many(chain),
        })
    }

    /// The same part, for a further owner. It takes no memory; the error is that there are too many owners.
    pub fn share(&self) -> Result<Self, AllocError>
        ensures { IfOk result (λ part. part ≡ self.now) }
    {
        match &self.vertices {
            Vertices::One(place) => Ok(Part::at(*place)),
            Vertices::Many(chain) => Ok(Part {
                vertices: Vertices::Many(chain.share()?),
            }),
        }
    }

    /// The vertices, in order.
    pub fn as_slice(&self) -> &[World]
        ensures { result.now ≡ self.now }
    {
        match &self.vertices {
            Vertices::One(place) => slice::from_ref(place),
            Vertices::Many(chain) => chain.get().as_slice(),
        }
    }

    /// How many vertices there are.
    pub fn len(&self) -> usize
        ensures { result ≡ length self.now }
    {
        self.as_slice().len()
    }

    /// The boxes of the blocks of vertices, in order.
    pub fn boxes(&self) -> &[BlockBox]
        ensures { AreBlockBoxes self.now result.now }
    {
        match &self.vertices {
            Vertices::One(_) => &[],
            Vertices::Many(chain) => chain.get().boxes(),
        }
    }
}

/// Splits the vertices that follow on the first one of a block into those of the block and those after it.
pub fn split_block(rest: &[World]) -> (&[World], &[World])
    ensures block { result.0.now ≡ take BLOCK_EDGES rest.now }
    ensures behind { result.1.now ≡ drop BLOCK_EDGES rest.now }
{
    rest.split_at(BLOCK_EDGES.min(rest.len()))
}
