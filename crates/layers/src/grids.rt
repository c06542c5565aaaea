ghost use Rattle.std.specs.Prelude.{◌≡◌, ◌≤◌, ◌+◌, ◌++◌, ◌^◌, length, map, IfOk};
ghost use Rattle.gridindex.specs.Window.{IsAnswer};
ghost use Rattle.layers.specs.Boxes.{boxes_of};

use crate::boxes::grid_of;
use geom::WorldBox;
use gridindex::Grid;
use mapdefs::{Layer, Shared};
use std::alloc::{AllocError, Global};
use std::marker::Model;

/// The grid of the boxes of a layer's features, which copies of the layers share. Contracts see the boxes. A grid
/// without boxes takes no memory.
#[derive(Drop)]
pub struct SharedGrid {
    grid: Option<Shared<Grid>>,
}

impl Model for SharedGrid {
    ghost use Rattle.std.specs.Prelude.{List, []};
    ghost use Rattle.std.specs.Option.{option_map_or};
    ghost use Rattle.geom.specs.World.{Area};

    ghost Value = { List Area };

    ghost view = { λ g. option_map_or (λ boxes. boxes) g.grid [] };
}

impl SharedGrid {
    ghost use Rattle.std.specs.Prelude.{[]};

    /// The grid of no boxes.
    pub fn empty() -> Self
        ensures { result ≡ [] }
    {
        SharedGrid { grid: None }
    }

    /// The grid, with its first owner.
    pub fn new(alloc: Global, grid: Grid) -> Result<Self, AllocError>
        ensures { IfOk result (λ g. g ≡ grid) }
    {
        Ok(SharedGrid {
            grid: Some(Shared::new(alloc, grid)?),
        })
    }

    /// The same grid, for a further owner. It takes no memory; the error is that there are too many owners.
    pub fn share(&self) -> Result<Self, AllocError>
        ensures { IfOk result (λ g. g ≡ self.now) }
    {
        match &self.grid {
            Some(grid) => Ok(SharedGrid {
                grid: Some(grid.share()?),
            }),
            None => Ok(SharedGrid { grid: None }),
        }
    }

    /// A grid of these boxes, and of others after them.
    pub fn extended(&self, alloc: Global, more: Vec<WorldBox>) -> Result<Self, AllocError>
        requires { length self.now + length more.items ≤ 2 ^ 32 }
        ensures { IfOk result (λ g. g ≡ self.now ++ more.items) }
    {
        match &self.grid {
            Some(grid) => SharedGrid::new(alloc, grid.get().extended(&more)?),
            None => SharedGrid::new(alloc, Grid::build(alloc, more)?),
        }
    }

    /// The indices of all boxes that meet the window, borders included, rising and each once.
    pub fn candidates(&self, alloc: Global, window: WorldBox) -> Result<Vec<u32>, AllocError>
        ensures { IfOk result (λ found. IsAnswer window self.now found.items) }
    {
        match &self.grid {
            Some(grid) => grid.get().candidates(window),
            None => Ok(Vec::new(alloc)),
        }
    }
}

/// The grids of some layers.
pub fn grids_of(alloc: Global, layers: &[Layer]) -> Result<Vec<SharedGrid>, AllocError>
    ensures { IfOk result (λ grids. grids.items ≡ map boxes_of layers.now) }
{
    let mut grids = Vec::with_capacity(alloc, layers.len())?;
    for layer in layers {
        grids.push(grid_of(alloc, layer.get().features.as_slice())?)?;
    }
    Ok(grids)
}

/// The same grids, for further owners.
pub fn share_all(alloc: Global, grids: &[SharedGrid]) -> Result<Vec<SharedGrid>, AllocError>
    ensures { IfOk result (λ shared. shared.items ≡ grids.now) }
{
    let mut shared = Vec::with_capacity(alloc, grids.len())?;
    for grid in grids {
        shared.push(grid.share()?)?;
    }
    Ok(shared)
}
