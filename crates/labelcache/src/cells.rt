ghost use Rattle.std.specs.Prelude.{◌≡◌, ◌⊎◌, ℕ, ◌<◌, ◌≤◌, ◌+◌, ◌*◌, ◌/◌, ◌^◌, IsTrue, OnOk, OnErr};
ghost use Rattle.geom.specs.Range.{IsBelow};
ghost use Rattle.labelcache.specs.Candidate.{IsAnchor};
ghost use Rattle.labelcache.specs.Cells.{HasNearPoint, IsCell, IsMarked, IsPointNear, IsWithin, apart, cell_of, child_of, has, offset, point_of};

use crate::distance::is_within;
use geom::Pixel;
use std::alloc::{AllocError, Global};
use std::collections::BTreeSet;

// The highest level of cells. A side of its cells, 2^17 pixels, is more than twice each distance.
const TOP: u8 = 17;

/// A column and a row of an anchor, counted from 2^32 before the picture's first.
#[derive(Clone, Copy)]
pub struct GridPoint {
    pub column: u64,
    pub row: u64,
}

/// A square of 2^level pixels a side, by its column and its row of such squares.
#[derive(Clone, Copy)]
pub struct Cell {
    pub level: u8,
    pub column: u64,
    pub row: u64,
}

/// The cells that are marked, each by its level, column and row.
pub type Marked = BTreeSet<(u8, (u64, u64))>;

// A column or a row of an anchor, counted from 2^32 before the picture's first.
fn offset(position: i64) -> u64
    requires { IsBelow (2 ^ 32) position }
    ensures value { result ≡ offset position }
    ensures bound { result < 2 ^ 33 }
{
    (position + 4_294_967_296).unsigned_abs()
}

/// The point of an anchor: its column and its row as they are counted in cells.
pub fn point_of(anchor: Pixel) -> GridPoint
    requires { IsAnchor anchor }
    ensures value { result ≡ point_of anchor }
    ensures within { IsWithin result }
{
    GridPoint {
        column: offset(anchor.i()),
        row: offset(anchor.j()),
    }
}

// The cell of a level that contains a point.
fn cell_of(level: u8, point: GridPoint) -> Cell
    requires { level ≤ 17 }
    ensures { result ≡ cell_of level point }
{
    Cell {
        level,
        column: point.column >> level,
        row: point.row >> level,
    }
}

// A quarter of a cell.
fn child_of(cell: Cell, right: u64, down: u64) -> Cell
    requires level { 0 < cell.level }
    requires right { right ≤ 1 }
    requires down { down ≤ 1 }
    requires columns { cell.column ≤ 2 ^ 34 }
    requires rows { cell.row ≤ 2 ^ 34 }
    requires cell { IsCell cell }
    ensures value { result ≡ child_of cell right down }
    ensures within { IsCell result }
{
    Cell {
        level: cell.level - 1,
        column: 2 * cell.column + right,
        row: 2 * cell.row + down,
    }
}

// Marks a cell. Where memory is refused nothing changes.
fn mark_cell(marked: &mut Marked, cell: Cell) -> Result<(), AllocError>
    ensures grows { (q : Cell) → IsTrue (has marked.old q) → IsTrue (has marked.new q) }
    ensures done { OnOk result (IsTrue (has marked.new cell)) }
    ensures only { OnOk result ((q : Cell) → IsTrue (has marked.new q) → IsTrue (has marked.old q) ⊎ (q ≡ cell)) }
    ensures err { OnErr result ((q : Cell) → IsTrue (has marked.new q) → IsTrue (has marked.old q)) }
{
    match marked.insert((cell.level, (cell.column, cell.row))) {
        Ok(_) => Ok(()),
        Err(_) => Err(AllocError),
    }
}

/// Marks the cells of all levels that contain a point. Where memory is refused, no further cell of the lowest level
/// is marked.
///
/// The cell of the lowest level, which has that point alone, is marked last.
pub fn mark_point(marked: &mut Marked, point: GridPoint) -> Result<(), AllocError>
    ensures grows { (q : Cell) → IsTrue (has marked.old q) → IsTrue (has marked.new q) }
    ensures done { OnOk result (IsMarked marked.new point) }
    ensures only { OnOk result ((q : Cell) → q.level ≡ 0 → IsTrue (has marked.new q) → IsTrue (has marked.old q) ⊎ (q ≡ cell_of 0 point)) }
    ensures err { OnErr result ((q : Cell) → q.level ≡ 0 → IsTrue (has marked.new q) → IsTrue (has marked.old q)) }
{
    mark_above(marked, point)?;
    mark_cell(marked, cell_of(0, point))
}

// Marks the cells of all levels but the lowest that contain a point.
fn mark_above(marked: &mut Marked, point: GridPoint) -> Result<(), AllocError>
    ensures grows { (q : Cell) → IsTrue (has marked.old q) → IsTrue (has marked.new q) }
    ensures done { OnOk result ((level : ℕ) → 0 < level → level ≤ 17 → IsTrue (has marked.new (cell_of level point))) }
    ensures only { (q : Cell) → q.level ≡ 0 → IsTrue (has marked.new q) → IsTrue (has marked.old q) }
{
    let mut level = TOP;
    while level > 0 {
        mark_cell(marked, cell_of(level, point))?;
        level -= 1;
    }
    Ok(())
}

// How many pixels a side of a cell has.
fn side_of(level: u8) -> u64
    requires { level ≤ 17 }
    ensures value { result ≡ 2 ^ level }
    ensures least { 1 ≤ result }
    ensures most { result ≤ 2 ^ 17 }
{
    2_u64.pow(u32::from(level))
}

// How far a column or row is from the nearest of so many from the first on.
fn gap(first: u64, side: u64, at: u64) -> u64
    requires side { 1 ≤ side }
    requires end { first + side ≤ 2 ^ 34 }
    requires at { at < 2 ^ 33 }
    ensures least { (x : ℕ) → first ≤ x → x < first + side → result ≤ apart at x }
    ensures exact { side ≡ 1 → result ≡ apart at first }
{
    if at < first {
        first - at
    } else if at - first < side {
        0
    } else {
        at - first - (side - 1)
    }
}

// Whether a cell may contain a point that is nearer to another than a distance.
fn may_be_near(cell: Cell, point: GridPoint, distance: u16) -> bool
    requires level { cell.level ≤ 17 }
    requires cell { IsCell cell }
    requires point { IsWithin point }
    ensures complete { (p : GridPoint) → cell ≡ cell_of cell.level p → IsPointNear point distance p → IsTrue result }
    ensures sound { cell.level ≡ 0 → IsTrue result → IsPointNear point distance (record { column = cell.column; row = cell.row }) }
{
    let side = side_of(cell.level);
    let across = gap(cell.column * side, side, point.column);
    let down = gap(cell.row * side, side, point.row);
    is_within(across, down, distance)
}

// Whether a cell is marked.
fn has(marked: &Marked, cell: Cell) -> bool
    ensures { result ≡ has marked.now cell }
{
    marked.contains(&(cell.level, (cell.column, cell.row)))
}

// Whether a cell contains a marked point that is nearer to another than a distance. A cell that is too far is skipped
// with all that it contains.
fn finds(marked: &Marked, cell: Cell, point: GridPoint, distance: u16) -> bool
    requires level { cell.level ≤ 17 }
    requires cell { IsCell cell }
    requires point { IsWithin point }
    ensures sound { IsTrue result → HasNearPoint marked.now point distance }
    ensures complete { (p : GridPoint) → IsMarked marked.now p → cell ≡ cell_of cell.level p → IsPointNear point distance p → IsTrue result }
{
    if !may_be_near(cell, point, distance) || !has(marked, cell) {
        return false;
    }
    if cell.level == 0 {
        return true;
    }
    if finds(marked, child_of(cell, 0, 0), point, distance) {
        return true;
    }
    if finds(marked, child_of(cell, 1, 0), point, distance) {
        return true;
    }
    if finds(marked, child_of(cell, 0, 1), point, distance) {
        return true;
    }
    finds(marked, child_of(cell, 1, 1), point, distance)
}

// The columns, or rows, of cells of the highest level around a point, which may be one.
#[derive(Clone, Copy)]
struct Neighbours {
    first: u64,
    last: u64,
}

// The columns, or rows, of cells of the highest level that contain all that is nearer to a column, or a row, than a distance.
fn around(at: u64, distance: u16) -> Neighbours
    requires { at < 2 ^ 33 }
    ensures has { (x : ℕ) → apart at x < distance → (x / 2 ^ 17 ≡ result.first) ⊎ (x / 2 ^ 17 ≡ result.last) }
    ensures first { (result.first + 1) * 2 ^ 17 ≤ 2 ^ 34 }
    ensures last { (result.last + 1) * 2 ^ 17 ≤ 2 ^ 34 }
{
    let distance = u64::from(distance);
    Neighbours {
        first: at.saturating_sub(distance) >> TOP,
        last: (at + distance) >> TOP,
    }
}

// Whether a cell of the highest level in a row of them contains a marked point that is nearer to another than a distance.
fn row_finds(marked: &Marked, row: u64, point: GridPoint, distance: u16) -> bool
    requires row { (row + 1) * 2 ^ 17 ≤ 2 ^ 34 }
    requires point { IsWithin point }
    ensures sound { IsTrue result → HasNearPoint marked.now point distance }
    ensures complete { (p : GridPoint) → IsMarked marked.now p → p.row / 2 ^ 17 ≡ row → IsPointNear point distance p → IsTrue result }
{
    let columns = around(point.column, distance);
    let first = Cell {
        level: TOP,
        column: columns.first,
        row,
    };
    if finds(marked, first, point, distance) {
        return true;
    }
    if columns.last == columns.first {
        return false;
    }
    let last = Cell {
        level: TOP,
        column: columns.last,
        row,
    };
    finds(marked, last, point, distance)
}

/// Whether a marked point is nearer to another than a distance. The search begins at the cells of the highest level around the point, of
/// which there are at most four.
pub fn has_near(marked: &Marked, point: GridPoint, distance: u16) -> bool
    requires { IsWithin point }
    ensures sound { IsTrue result → HasNearPoint marked.now point distance }
    ensures complete { (p : GridPoint) → IsMarked marked.now p → IsPointNear point distance p → IsTrue result }
{
    let rows = around(point.row, distance);
    if row_finds(marked, rows.first, point, distance) {
        return true;
    }
    rows.last != rows.first && row_finds(marked, rows.last, point, distance)
}
