use crate::shapes::{edge, sides};
use clip::{EdgeClass, RowRange, clamped, classify};
use geom::MAX_PICTURE_SIDE;
use scanfill::{EdgeWalk, Work};
use std::alloc::{AllocError, Global};
use test_tables::{TableFault, check_rows, numbers};

// What an edge is on a picture and in which rows, worked by hand, the ends of the edge, and width and height
// of the picture. A `RowRange` without pixels of it is written as 0 0.
const CLASSES: &str = "\
left 1 3=-48 16 -48 48|4 4
drop 0 0=80 0 80 64|4 4
drop 0 0=0 20 64 20|4 4
walk 1 3=16 16 48 48|4 4
walk 1 3=48 48 16 16|4 4
walk 0 4=56 0 56 64|4 4
drop 0 0=57 0 57 64|4 4
walk 0 4=57 0 56 64|4 4
drop 0 0=56 0 57 64|3 4
left 0 4=8 0 8 64|4 4
walk 0 4=9 0 8 64|4 4
walk 0 4=8 0 9 64|4 4
left 0 1=5 8 5 24|4 4
drop 0 0=5 9 5 24|4 4
left 0 1=5 24 5 8|4 4
left 0 2=5 8 5 25|4 4
drop 0 0=5 -100 5 0|4 4
drop 0 0=5 64 5 200|4 4
left 0 3=5 -100 5 200|4 3
walk 3 4=20 56 20 200|4 4
drop 0 0=20 57 20 200|4 4
walk 0 1=20 -200 30 9|7 1
walk 0 2048=32760 0 32760 32768|2048 2048
drop 0 0=32761 0 32761 32768|2048 2048
walk 0 2047=-140737488355327 140737488355327 140737488355327 -140737488355327|2048 2047";

// The class of the edge of a row.
fn class_of(row: &str) -> Option<EdgeClass> {
    let (ends, size) = row.split_once('|')?;
    let (width, height) = sides(size)?;
    Some(classify(edge(numbers(ends, ' ')?), width, height))
}

fn class(alloc: Global, row: &str) -> Result<String, AllocError> {
    match class_of(row) {
        Some(EdgeClass::LeftOfView { rows }) => format!(in alloc; "left {} {}", rows.from, rows.to),
        Some(EdgeClass::Walk { rows }) => format!(in alloc; "walk {} {}", rows.from, rows.to),
        Some(EdgeClass::Drop) => format!(in alloc; "drop 0 0"),
        None => format!(in alloc; "malformed"),
    }
}

#[test]
fn edges_have_worked_classes(rt: HostRuntime) -> Result<(), TableFault> {
    check_rows(rt.alloc(), CLASSES, '=', 25, class)
}

// The rows from the first one to the last one of both, and two lots of rows.
const ROWS: &str = "\
2 9=2 4 7 9
2 9=7 9 2 4
1 8=1 8 3 5
# no rows add none, wherever they stand
3 5=3 5 0 0
3 5=9 6 3 5";

fn rows(from: i64, to: i64) -> RowRange {
    RowRange {
        from: from.clamp(0, 99) as u16,
        to: to.clamp(0, 99) as u16,
    }
}

// The two lots of a row, joined.
fn joined_rows(row: &str) -> Option<RowRange> {
    let [a, b, c, d] = numbers::<4>(row, ' ')?;
    Some(rows(a, b).joined(rows(c, d)))
}

fn joined(alloc: Global, row: &str) -> Result<String, AllocError> {
    match joined_rows(row) {
        Some(RowRange { from, to }) => format!(in alloc; "{from} {to}"),
        None => format!(in alloc; "malformed"),
    }
}

#[test]
fn joined_rows_go_from_the_first_to_the_last(rt: HostRuntime) -> Result<(), TableFault> {
    check_rows(rt.alloc(), ROWS, '=', 5, joined)
}

// The end of some rows isn't one of them.
#[test]
fn rows_have_those_before_their_end(rt: HostRuntime) {
    let rows = rows(3, 5);
    let held = [rows.has(2), rows.has(3), rows.has(4), rows.has(5)];
    assert_eq!(rt; held, [false, true, true, false]);
}

// What comes of an index and an end.
const INDICES: &str = "\
0=-170141183460469231731687303715884105728 5
0=-1 5
0=0 5
1=1 5
4=4 5
5=5 5
2048=70003 2048
0=3 0";

// The index of a row, cut.
fn cut(row: &str) -> Option<u16> {
    let (index, end) = row.split_once(' ')?;
    Some(clamped(index.parse::<i128>().ok()?, end.parse::<u16>().ok()?))
}

fn index(alloc: Global, row: &str) -> Result<String, AllocError> {
    match cut(row) {
        Some(index) => format!(in alloc; "{index}"),
        None => format!(in alloc; "malformed"),
    }
}

#[test]
fn indices_are_cut_at_both_ends(rt: HostRuntime) -> Result<(), TableFault> {
    check_rows(rt.alloc(), INDICES, '=', 8, index)
}

// The columns in which an edge is walked, and the divisions that were made for all of them. The ends of the edge, and
// width and height of the picture.
const WALKS: &str = "\
1 2 by 2=16 16 48 48|4 4
2 1 by 2=48 16 16 48|4 4
2 1 by 2=16 48 48 16|4 4
# the crossing lies at the centre of column 1, and a sixteenth to the right of it
1 1 1 1 by 2=24 0 24 64|4 4
2 2 2 2 by 2=25 0 25 64|4 4
# three columns and a little to the right from row to row
-2 1 4 by 2=-64 0 81 48|9 3
# an edge on no pixel centre's height, and one left of the view
by 0=0 20 64 20|4 4
by 0=-48 16 -48 48|4 4";

// Adds the columns of a walk down its rows, of which there are 2,048 at most.
fn add_columns(alloc: Global, walk: &mut EdgeWalk, columns: &mut String) -> Result<(), AllocError> {
    for _row in 0..2_048_u16 {
        let column = format!(in alloc; "{} ", walk.column())?;
        columns.push_str(column.as_str())?;
        if walk.row() >= walk.end().saturating_sub(1) {
            return Ok(());
        }
        walk.next_row();
    }
    Ok(())
}

// The same of a row.
fn walk(alloc: Global, row: &str) -> Result<String, AllocError> {
    let mut columns = String::new(alloc);
    let mut work = Work::new();
    let (ends, size) = row.split_once('|').unwrap_or(("", ""));
    if let (Some(ends), Some((width, height))) = (numbers(ends, ' '), sides(size)) {
        let edge = edge(ends);
        if let EdgeClass::Walk { rows } = classify(edge, width, height) {
            if rows.to <= MAX_PICTURE_SIDE {
                let mut walk = EdgeWalk::start(edge, rows, &mut work);
                add_columns(alloc, &mut walk, &mut columns)?;
            }
        }
    }
    format!(in alloc; "{columns}by {}", work.divisions)
}

#[test]
fn edges_are_walked_by_two_divisions(rt: HostRuntime) -> Result<(), TableFault> {
    check_rows(rt.alloc(), WALKS, '=', 8, walk)
}
