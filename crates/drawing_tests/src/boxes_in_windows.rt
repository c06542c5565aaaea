ghost use Rattle.std.specs.Prelude.{◌≡◌, ◌≤◌, ◌<◌, ◌+◌, ◌-◌, ◌^◌, length, IfOk, OnOk};

use crate::shapes::area;
use geom::WorldBox;
use gridindex::Grid;
use std::alloc::{AllocError, Global};
use test_tables::{TableFault, check_rows};

// The greatest number of millionths, the one before it, and the least.
const FAR: i64 = i64::MAX;

const NEARLY: i64 = i64::MAX - 1;

const LEAST: i64 = i64::MIN;

// The box of the whole degrees of its sides.
fn degrees(sides: [i64; 4]) -> WorldBox {
    area(sides.map(|side| side.wrapping_mul(1_000_000)))
}

// Adds the indices of the boxes that the window finds.
fn query(out: &mut String, grid: &Grid, window: WorldBox) -> Result<(), AllocError> {
    let found = grid.candidates(window)?;
    write!(out, "{:?}", found.as_slice())
}

// Queries a grid of three boxes, adds one, and begins anew.
fn query_three(out: &mut String, grid: &mut Grid) -> Result<(), AllocError>
    requires { length grid.old < 2 ^ 31 }
{
    let window = degrees([0, 0, 1, 1]);
    query(out, grid, window)?;
    grid.add(degrees([1, 1, 1, 1]))?;
    query(out, grid, window)?;
    query(out, grid, degrees([6, -9, 7, 5]))?;
    grid.clear();
    query(out, grid, window)?;
    grid.add(degrees([1, 1, 1, 1]))?;
    query(out, grid, window)
}

// Queries a grid without boxes, and adds one.
fn query_none(out: &mut String, grid: &mut Grid) -> Result<(), AllocError>
    requires { length grid.old < 2 ^ 31 }
{
    let world = area([LEAST, LEAST, FAR, FAR]);
    query(out, grid, world)?;
    grid.add(area([FAR, LEAST, FAR, LEAST]))?;
    query(out, grid, world)?;
    query(out, grid, area([FAR, FAR, LEAST, LEAST]))
}

// The answers of three boxes.
fn of_three(alloc: Global, _of: &str) -> Result<String, AllocError> {
    let rows = [[0, 0, 0, 0], [5, 5, 6, 6], [-1, -1, 9, 9]].map(degrees);
    let mut grid = Grid::build(alloc, vec![in alloc; rows[0], rows[1], rows[2]]?)?;
    let mut text = String::new(alloc);
    query_three(&mut text, &mut grid)?;
    Ok(text)
}

#[test]
fn windows_find_worked_boxes(rt: HostRuntime) -> Result<(), TableFault> {
    check_rows(
        rt.alloc(),
        "[0, 2][0, 2, 3][1, 2][][0]=three",
        '=',
        1,
        of_three,
    )
}

// The answers of no boxes.
fn of_none(alloc: Global, _of: &str) -> Result<String, AllocError> {
    let mut grid = Grid::build(alloc, Vec::new(alloc))?;
    let mut text = String::new(alloc);
    query_none(&mut text, &mut grid)?;
    Ok(text)
}

#[test]
fn no_boxes_and_one_are_queried(rt: HostRuntime) -> Result<(), TableFault> {
    check_rows(rt.alloc(), "[][0][]=none", '=', 1, of_none)
}

// The next number of a sequence, from 0 to before the limit.
fn next(state: &mut u64, limit: i64) -> i64 {
    *state = state
        .wrapping_mul(6_364_136_223_846_793_005)
        .wrapping_add(1_442_695_040_888_963_407);
    ((*state >> 33) as i64).wrapping_mul(limit) >> 31
}

// A box of whole degrees within 30 of the middle, one in nine of them a point, so that many touch. Of 20
// boxes one is large, one holds no point, and seven reach or lie at the greatest numbers, on each side.
fn next_box(state: &mut u64) -> WorldBox {
    let (x, y) = (next(state, 60), next(state, 60));
    let (width, height) = (next(state, 3), next(state, 3));
    let [west, south, east, north] = [x, y, x.wrapping_add(width), y.wrapping_add(height)].map(
        |side| side.wrapping_sub(30).wrapping_mul(1_000_000),
    );
    area(match next(state, 20) {
        0 => [
            west.wrapping_mul(9),
            south,
            east.wrapping_add(FAR >> 8),
            north.wrapping_add(32_000_000),
        ],
        1 => [east.wrapping_add(1), south, west, north],
        2 => [-FAR, -FAR, west, FAR],
        3 => [FAR, FAR, FAR, FAR],
        4 => [LEAST, north, LEAST, FAR],
        5 => [west, -FAR, west, -FAR],
        6 => [NEARLY, south, FAR, south],
        7 => [LEAST, LEAST, LEAST, -FAR],
        8 => [west, NEARLY, east, FAR],
        _ => [west, south, east, north],
    })
}

// The indices of the boxes of a list that meet the window, tested one by one.
fn found_in_list(
    alloc: Global,
    list: &[WorldBox],
    window: WorldBox,
) -> Result<Vec<u32>, AllocError> {
    let mut found = Vec::new(alloc);
    let mut index = 0_u32;
    for area in list {
        if window.meets(*area) {
            found.push(index)?;
        }
        index = index.wrapping_add(1);
    }
    Ok(found)
}

// Adds a box to the list and to the grid.
fn add_next(
    alloc: Global,
    grid: &mut Grid,
    list: &mut Vec<WorldBox>,
    area: WorldBox,
) -> Result<(), AllocError>
    requires { length grid.old < 2 ^ 32 }
    ensures { OnOk result (length grid.new ≡ length grid.old + 1) }
{
    grid.add(area)?;
    list.push(area)?;
    Ok(())
}

// A number of boxes.
fn some_boxes(alloc: Global, state: &mut u64, count: u16) -> Result<Vec<WorldBox>, AllocError>
    ensures { IfOk result (λ boxes. length boxes.items ≡ count) }
{
    let mut boxes = Vec::new(alloc);
    for _number in 0..count {
        boxes.push(next_box(state))?;
    }
    Ok(boxes)
}

// Adds 300 boxes to both.
fn add_some(
    alloc: Global,
    grid: &mut Grid,
    list: &mut Vec<WorldBox>,
    state: &mut u64,
) -> Result<(), AllocError>
    requires { length grid.old ≤ 5000 }
{
    for _number in 0..300_u16 {
        add_next(alloc, grid, list, next_box(state))?;
    }
    Ok(())
}

// Whether the boxes of a grid that a window finds are those of the list, and how many they are.
fn found_in_both(
    alloc: Global,
    grid: &Grid,
    list: &[WorldBox],
    window: WorldBox,
) -> Result<(bool, usize), AllocError> {
    let found = grid.candidates(window)?;
    let expected = found_in_list(alloc, list, window)?;
    Ok((found == expected, found.len()))
}

// Queries a thousand windows. How many boxes they find, or the first window for which the list has another
// answer.
fn found_by_all(
    alloc: Global,
    grid: &Grid,
    list: &[WorldBox],
) -> Result<Result<usize, WorldBox>, AllocError> {
    let mut state = 20_262;
    let mut count = 0_usize;
    for _ in 0..1_000_u16 {
        let window = next_box(&mut state);
        let (is_same, found) = found_in_both(alloc, grid, list, window)?;
        if !is_same {
            return Ok(Err(window));
        }
        count = count.saturating_add(found);
    }
    Ok(Ok(count))
}

// Adds the result of the windows: many where they find more boxes than they are themselves, `few`, or the
// window for which the list has another answer.
fn write_result(
    out: &mut String,
    alloc: Global,
    grid: &Grid,
    list: &[WorldBox],
) -> Result<(), AllocError> {
    match found_by_all(alloc, grid, list)? {
        Ok(found) if found > 1_000 => out.push_str("many "),
        Ok(_) => out.push_str("few "),
        Err(window) => write!(out, "{window:?} "),
    }
}

// Adds the result of a grid that was built, and again after boxes were added.
fn write_twice(
    out: &mut String,
    alloc: Global,
    grid: &mut Grid,
    list: &mut Vec<WorldBox>,
    state: &mut u64,
) -> Result<(), AllocError>
    requires { length grid.old ≤ 5000 }
{
    write_result(out, alloc, grid, list)?;
    add_some(alloc, grid, list, state)?;
    write_result(out, alloc, grid, list)
}

// The result of boxes that a sequence from that number on makes.
fn of_sequence(alloc: Global, number: &str) -> Result<String, AllocError> {
    let Ok(mut state) = number.parse::<u64>() else {
        return String::from_str(alloc, "malformed");
    };
    let mut list = some_boxes(alloc, &mut state, 5_000)?;
    let mut grid = Grid::build(alloc, Vec::from_slice(alloc, &list)?)?;
    let mut text = String::new(alloc);
    write_twice(&mut text, alloc, &mut grid, &mut list, &mut state)?;
    Ok(text)
}

// Many windows find some, and none finds most.
#[test]
fn answers_are_those_of_a_plain_list(rt: HostRuntime) -> Result<(), TableFault> {
    check_rows(rt.alloc(), "many many =20261", '=', 1, of_sequence)
}
