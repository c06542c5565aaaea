//! Lines, outlines and points that are painted: vertex by vertex, and what needs no painting is skipped.
//!
//! Proved: `paint_lines`, `paint_outline` and `paint_points` paint over the canvas what a style gives for lines
//! (`line_shapes`), for the outline of a polygon (`outline_shapes`) and for points (`point_shapes`). A line covers what its
//! segments and the squares round its vertices cover, whatever of them was skipped. On a picture that is more than once as
//! fine as the map a line is round: `paint_round_line` fills what its round segments cover.
//!
//! Terms: a *step* of a line is a segment and the square round its second vertex, and a box is *quiet* where a step within
//! it needs no painting. A *pen* has the width and the colour of a line. The *grain* of a projection is how many whole
//! millionths of a degree a sixteenth of a pixel shows.
#![tactic(auto)]

mod grain;
mod lines;
mod outline;
mod pen;
mod points;
mod round_fill;
mod round_pen;
mod round_stroke;
mod strips;
mod stroke;
mod trail;

pub use lines::paint_lines;
pub use outline::paint_outline;
pub use points::paint_points;
