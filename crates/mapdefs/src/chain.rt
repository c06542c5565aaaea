ghost use Rattle.std.specs.Prelude.{◌≡◌, ◌<◌, ◌+◌, take, drop, length, IfOk};
ghost use Rattle.mapdefs.specs.Blocks.{AreBlockBoxes, box_of_places};
ghost use Rattle.mapdefs.specs.declared.block_box.TheConstants.{BLOCK_EDGES};

use crate::{BLOCK_EDGES, BlockBox};
use geom::World;
use std::alloc::{AllocError, Global};
use std::marker::Model;

/// Vertices in order, and the box of each block of them. Contracts see the list of the vertices.
#[derive(Drop)]
pub struct Chain {
    vertices: Vec<World>,
    boxes: Vec<BlockBox>,
}

impl Model for Chain {
    ghost use Rattle.std.specs.Prelude.{List};
    ghost use Rattle.geom.specs.World.{Place};
    ghost use Rattle.mapdefs.specs.Blocks.{AreBlockBoxes};

    ghost Value = { List Place };

    ghost view = { λ c. c.vertices.items };

    ghost invariant = { λ c. AreBlockBoxes c.vertices.items c.boxes.items };
}

impl Chain {
    /// The chain of these vertices, which are taken over as they are. It takes memory for a box of each block.
    pub fn of(alloc: Global, vertices: Vec<World>) -> Result<Self, AllocError>
        ensures { IfOk result (λ chain. chain ≡ vertices.items) }
    {
        let boxes = boxes_of(alloc, &vertices)?;
        Ok(Chain { vertices, boxes })
    }

    /// The vertices, in order.
    pub fn as_slice(&self) -> &[World]
        ensures { result.now ≡ self.now }
    {
        self.vertices.as_slice()
    }

    /// The boxes of the blocks of vertices, in order.
    pub fn boxes(&self) -> &[BlockBox]
        ensures { AreBlockBoxes self.now result.now }
    {
        self.boxes.as_slice()
    }
}

// The boxes of the blocks of some vertices.
fn boxes_of(alloc: Global, vertices: &[World]) -> Result<Vec<BlockBox>, AllocError>
    ensures { IfOk result (λ boxes. AreBlockBoxes vertices.now boxes.items) }
{
    let count = vertices.len().saturating_sub(1).div_ceil(BLOCK_EDGES);
    let mut boxes = Vec::with_capacity(alloc, count)?;
    for k in 0..count {
        boxes.push(box_of_block(vertices, k * BLOCK_EDGES))?;
    }
    Ok(boxes)
}

// The box of the block that begins with the vertex of that index.
fn box_of_block(vertices: &[World], start: usize) -> BlockBox
    requires { start < length vertices.now }
    ensures { result ≡ box_of_places (take (BLOCK_EDGES + 1) (drop start vertices.now)) }
{
    let left = &vertices[start..];
    BlockBox::of(&left[..(BLOCK_EDGES + 1).min(left.len())])
}
