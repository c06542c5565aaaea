use crate::shapes::area;
use std::alloc::{AllocError, Global};
use test_maps::place;
use test_tables::{TableFault, check_rows, numbers};

// Whether two boxes share a place, tested from each, and their sides, west, south, east and north.
const MEETINGS: &str = "\
true true=0 0 3 4|2 3 5 6
true true=0 0 3 4|3 1 5 2
true true=0 0 3 4|1 4 2 7
true true=0 0 3 4|-2 1 0 3
true true=0 0 3 4|1 -5 2 0
true true=0 0 3 4|3 4 8 9
false false=0 0 3 4|4 1 5 2
false false=0 0 3 4|1 5 2 7
false false=0 0 3 4|-2 1 -1 3
false false=0 0 3 4|1 -5 2 -1
false false=0 0 3 4|5 6 8 9
true true=2 3 2 3|2 3 2 3
false false=2 3 2 3|2 4 2 4
true true=-9 -8 9 8|-1 -2 1 2
true true=-9 -1 9 1|-1 -9 1 9
false false=5 4 4 6|0 0 9 9
false false=4 6 5 5|0 0 9 9
true true=-9223372036854775808 1 9223372036854775807 1|7 1 7 1";

// Whether the boxes of a row meet.
fn meeting(row: &str) -> Option<(bool, bool)> {
    let (a, b) = row.split_once('|')?;
    let (a, b) = (area(numbers(a, ' ')?), area(numbers(b, ' ')?));
    Some((a.meets(b), b.meets(a)))
}

fn meet(alloc: Global, row: &str) -> Result<String, AllocError> {
    match meeting(row) {
        Some((one, other)) => format!(in alloc; "{one} {other}"),
        None => format!(in alloc; "malformed"),
    }
}

#[test]
fn boxes_meet_where_they_share_a_place(rt: HostRuntime) -> Result<(), TableFault> {
    check_rows(rt.alloc(), MEETINGS, '=', 18, meet)
}

// The coordinates of a place are those that it is made from.
#[test]
fn places_keep_their_coordinates(rt: HostRuntime) {
    let place = place([3, 5]);
    assert_eq!(rt;
        [place.x().get().millionths(), place.y().get().millionths()],
        [3, 5]
    );
}
