ghost use Rattle.std.specs.Prelude.{◌≡◌, ◌≤◌, ◌+◌, ◌++◌, map, length, IfOk, OnOk};
ghost use Rattle.mapdefs.specs.declared.limits.TheConstants.{MAX_FEATURES};
ghost use Rattle.mapdefs.specs.Blocks.{box_of_places, nowhere};
ghost use Rattle.layers.specs.Boxes.{box_of, with_box};

use crate::grids::SharedGrid;
use geom::{Micro, WorldBox};
use gridindex::Grid;
use mapdefs::{BlockBox, Feature, FeatureFields, Part};
use std::alloc::{AllocError, Global};

// The box that two boxes lie in.
fn with_box(a: WorldBox, b: WorldBox) -> WorldBox
    ensures { result ≡ with_box a b }
{
    WorldBox::new(
        a.minx().min(b.minx()),
        a.miny().min(b.miny()),
        a.maxx().max(b.maxx()),
        a.maxy().max(b.maxy()),
    )
}

// The box of a block.
fn box_of_block(block: BlockBox) -> WorldBox
    ensures { result ≡ block }
{
    let (minx, maxx) = (block.minx().get(), block.maxx().get());
    let (miny, maxy) = (block.miny().get(), block.maxy().get());
    WorldBox::new(minx, miny, maxx, maxy)
}

// The box of no places.
fn nowhere() -> WorldBox
    ensures { result ≡ nowhere }
{
    box_of_block(BlockBox::of(&[]))
}

// The box of the vertices of a part. It uses the boxes of blocks alone, if there are any.
fn box_of_part(part: &Part) -> WorldBox
    ensures { result ≡ box_of_places part.now }
{
    let boxes = part.boxes();
    if boxes.is_empty() {
        return box_of_block(BlockBox::of(part.as_slice()));
    }
    let mut grown = nowhere();
    for block in boxes {
        grown = with_box(grown, box_of_block(*block));
    }
    grown
}

// The box of a feature's points.
fn box_of(feature: &FeatureFields) -> WorldBox
    ensures { result ≡ box_of feature.now }
{
    let mut area = nowhere();
    for part in feature.parts.as_slice() {
        area = with_box(area, box_of_part(part));
    }
    area
}

// Appends the boxes of some features, in order, to others.
fn add_boxes(boxes: &mut Vec<WorldBox>, features: &[Feature]) -> Result<(), AllocError>
    ensures { OnOk result (boxes.new.items ≡ boxes.old.items ++ map box_of features.now) }
{
    for feature in features {
        boxes.push(box_of(feature.get()))?;
    }
    Ok(())
}

// The boxes of some features.
fn boxes_of(alloc: Global, features: &[Feature]) -> Result<Vec<WorldBox>, AllocError>
    ensures { IfOk result (λ boxes. boxes.items ≡ map box_of features.now) }
{
    let mut boxes = Vec::with_capacity(alloc, features.len())?;
    add_boxes(&mut boxes, features)?;
    Ok(boxes)
}

/// The grid of the boxes of some features.
pub fn grid_of(alloc: Global, features: &[Feature]) -> Result<SharedGrid, AllocError>
    requires { length features.now ≤ MAX_FEATURES }
    ensures { IfOk result (λ grid. grid ≡ map box_of features.now) }
{
    let boxes = boxes_of(alloc, features)?;
    SharedGrid::new(alloc, Grid::build(alloc, boxes)?)
}

/// The grid of the boxes of a grid, and of those of some features after them.
pub fn extended_grid(
    alloc: Global,
    grid: &SharedGrid,
    more: &[Feature],
) -> Result<SharedGrid, AllocError>
    requires { length grid.now + length more.now ≤ MAX_FEATURES }
    ensures { IfOk result (λ extended. extended ≡ grid.now ++ map box_of more.now) }
{
    let boxes = boxes_of(alloc, more)?;
    grid.extended(alloc, boxes)
}
