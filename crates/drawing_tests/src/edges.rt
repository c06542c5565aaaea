use crate::shapes::{edge, point};
use std::alloc::{AllocError, Global};
use test_tables::{TableFault, check_rows, numbers};

// Whether an edge crosses the height of a point at it or left of it, the ends of the edge, and the point.
const CROSSINGS: &str = "\
# upright, left of the point, through it, right of it
true=16 0 16 64|24 24
true=24 0 24 64|24 24
false=25 0 25 64|24 24
# the same upwards
true=24 64 24 0|24 24
# the upper end at the height counts, the lower end at it doesn't
true=0 24 0 64|24 24
false=0 0 0 24|24 24
# horizontal edges never count
false=0 24 8 24|24 24
# slanted, a quarter of the way down at x = 16
true=0 8 64 72|16 24
false=0 8 64 72|15 24
# above and below the point
false=0 32 0 64|24 24";

// Whether the edge of a row crosses.
fn crossing(row: &str) -> Option<bool> {
    let (ends, at) = row.split_once('|')?;
    Some(edge(numbers(ends, ' ')?).crosses_at_or_left(point(numbers(at, ' ')?)))
}

fn crosses(alloc: Global, row: &str) -> Result<String, AllocError> {
    match crossing(row) {
        Some(crosses) => format!(in alloc; "{crosses}"),
        None => format!(in alloc; "malformed"),
    }
}

#[test]
fn edges_cross_at_or_left_of_points(rt: HostRuntime) -> Result<(), TableFault> {
    check_rows(rt.alloc(), CROSSINGS, '=', 10, crosses)
}

// How far an edge goes down and to the right, its upper end and its lower end, and its ends.
const RISES: &str = "43 -38 41,7 3,50=3 50 41 7";

fn rise(alloc: Global, row: &str) -> Result<String, AllocError> {
    let Some(ends) = numbers(row, ' ') else {
        return format!(in alloc; "malformed");
    };
    let edge = edge(ends);
    let (rise, run, low, high) = (edge.rise(), edge.run(), edge.low_end(), edge.high_end());
    format!(in alloc;
        "{rise} {run} {},{} {},{}",
        low.x(),
        low.y(),
        high.x(),
        high.y()
    )
}

#[test]
fn edges_rise_downwards(rt: HostRuntime) -> Result<(), TableFault> {
    check_rows(rt.alloc(), RISES, '=', 1, rise)
}
