ghost use Rattle.std.specs.Prelude.{◌≡◌, map, IfOk, vec_items};
ghost use Rattle.viewport.specs.View.{device_point, points_of};

use geom::{Device, World};
use mapdefs::Part;
use std::alloc::{AllocError, Global};
use viewport::Projection;

/// The device points of each part, part by part.
pub fn points_of_parts(
    alloc: Global,
    projection: &Projection,
    parts: &[Part],
) -> Result<Vec<Vec<Device>>, AllocError>
    ensures { IfOk result (λ points. map vec_items points.items ≡ points_of projection.now parts.now) }
{
    let mut points = Vec::with_capacity(alloc, parts.len())?;
    for part in parts {
        points.push(points_of(alloc, projection, part.as_slice())?)?;
    }
    Ok(points)
}

// The device points of a part.
fn points_of(
    alloc: Global,
    projection: &Projection,
    part: &[World],
) -> Result<Vec<Device>, AllocError>
    ensures { IfOk result (λ points. points.items ≡ map (device_point projection.now) part.now) }
{
    let mut points = Vec::with_capacity(alloc, part.len())?;
    for place in part {
        points.push(projection.device(*place))?;
    }
    Ok(points)
}
