ghost use Rattle.std.specs.Prelude.{◌≡◌, ◌^◌, pos, ◌-ℤ◌};
ghost use Rattle.geom.specs.Device.{centre};
ghost use Rattle.geom.specs.Range.{IsBelow};
ghost use Rattle.clip.specs.EdgeClass.{class_of, IsClass, is_left_of_view, is_right_of_view, rows_of};

use crate::rows::{RowRange, rows_of};
use geom::{Edge, PictureSide};

/// How an edge counts for the pixels of a picture.
#[derive(Clone, Copy)]
pub enum EdgeClass {
    /// It counts for no pixel: it crosses no row, or lies right of the view.
    Drop,
    /// It lies left of the view, and counts for each pixel of these rows.
    LeftOfView {
        /// The rows that it crosses: at least one.
        rows: RowRange,
    },
    /// It counts for the pixels right of it in these rows.
    Walk {
        /// The rows that it crosses: at least one.
        rows: RowRange,
    },
}

/// The class of an edge, on a picture of that width and height. It takes no memory.
pub fn classify(edge: Edge, width: PictureSide, height: PictureSide) -> EdgeClass
    ensures class { result ≡ class_of edge width height }
    ensures cases { IsClass edge width height result }
{
    classify_in(edge, rows_of(edge, height), width, height)
}

/// The same, where the rows that the edge crosses are known.
#[tactic(auto, unfolding(crate::specs::EdgeClass::class_of))]
pub fn classify_in(edge: Edge, rows: RowRange, width: PictureSide, height: PictureSide) -> EdgeClass
    requires { rows ≡ rows_of edge height }
    ensures class { result ≡ class_of edge width height }
    ensures cases { IsClass edge width height result }
{
    if rows.is_empty() || is_right_of_view(edge, width) {
        return EdgeClass::Drop;
    }
    if is_left_of_view(edge) {
        return EdgeClass::LeftOfView { rows };
    }
    EdgeClass::Walk { rows }
}

// Whether both ends lie right of the pixel centres of the last column.
fn is_right_of_view(edge: Edge, width: PictureSide) -> bool
    ensures { result ≡ is_right_of_view edge width }
{
    let centre = last_centre(width);
    edge.low_end().x() > centre && edge.high_end().x() > centre
}

// The x of the pixel centres of the last column.
fn last_centre(width: PictureSide) -> i64
    ensures value { result ≡ centre (pos width -ℤ pos 1) }
    ensures range { IsBelow (2 ^ 47) result }
{
    16 * i64::from(width.pixels()) - 8
}

// Whether both ends lie left of the pixel centres of the first column, or at them.
fn is_left_of_view(edge: Edge) -> bool
    ensures { result ≡ is_left_of_view edge }
{
    edge.low_end().x() <= 8 && edge.high_end().x() <= 8
}
