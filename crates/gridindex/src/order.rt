ghost use Rattle.std.specs.Prelude.{◌≤◌, ◌^◌, length, IfOk};
ghost use Rattle.gridindex.specs.Groups.{IsOrder};

use geom::{Micro, WorldBox};
use std::alloc::{AllocError, Global};

/// The indices of the boxes, those of boxes that lie near one another side by side.
pub fn order_of(alloc: Global, boxes: &[WorldBox]) -> Result<Vec<u32>, AllocError>
    requires { length boxes.now ≤ 2 ^ 32 }
    ensures { IfOk result (λ order. IsOrder (length boxes.now) order.items) }
{
    let mut order = indices_below(alloc, boxes.len())?;
    order.sort_by_cached_key(|index| key_at(boxes, *index))?;
    Ok(order)
}

// The indices below a count, rising.
fn indices_below(alloc: Global, count: usize) -> Result<Vec<u32>, AllocError>
    requires { count ≤ 2 ^ 32 }
    ensures { IfOk result (λ order. IsOrder count order.items) }
{
    let mut order = Vec::with_capacity(alloc, count)?;
    for index in 0..count {
        order.push(index as u32)?;
    }
    Ok(order)
}

// Where the middle of a box lies, as a number: the bits of its longitude and of its latitude in turn. So near
// numbers are of places near one another. The answers don't depend on it, but the speed does.
fn key_at(boxes: &[WorldBox], index: u32) -> u64 {
    match boxes.get(index as usize) {
        Some(area) => {
            let x = middle(area.minx(), area.maxx());
            let y = middle(area.miny(), area.maxy());
            spread(x) | spread(y) << 1
        }
        None => 0,
    }
}

// Twice the middle of two coordinates, counted from one below all of them.
fn middle(low: Micro, high: Micro) -> u32 {
    let sum = low.millionths().saturating_add(high.millionths());
    let limit = 2_147_483_647;
    (sum.clamp(-limit, limit) + limit) as u32
}

// The bits of a number, with a 0 above each.
fn spread(n: u32) -> u64 {
    let n = u64::from(n);
    let n = (n | n << 16) & 0x0000_FFFF_0000_FFFF;
    let n = (n | n << 8) & 0x00FF_00FF_00FF_00FF;
    let n = (n | n << 4) & 0x0F0F_0F0F_0F0F_0F0F;
    let n = (n | n << 2) & 0x3333_3333_3333_3333;
    (n | n << 1) & 0x5555_5555_5555_5555
}
