//! Lines of a width, squares and discs: which pixels they cover, and the spans of their rows.
//!
//! Proved: `Line`, `Segment` and `Square` are covers. What `Cover::covers` and `Cover::row` say of a segment is
//! `covers_segment`, by comparisons of products; of a square it is `covers_square`. A line covers what its
//! segments and the squares round its vertices cover (`covers_pixel`). `laws::steep_along_its_line` and
//! `laws::flat_along_its_line` state that a segment covers what lies between its ends, within half its width of
//! its line; `laws::steep` and `laws::flat` that it is as many pixels thick as the line is wide; `laws::back` that
//! it covers the same in both directions. By `laws::nothing` it covers nothing where it has no length. By
//! `laws::short` a short segment of an odd width covers nothing but the squares round its ends.
//! `RowWalk::columns` gives what the segment covers in a row (`all`), with one division for each segment.
//!
//! `RoundSegment` and `RoundLine` are covers of round lines, by `covers_round` and `Round.covers_pixel`.
//! `laws::round_near` states that a round segment covers exactly what is at most half its width away from some point
//! of it, `laws::round_rows` that it covers one run of each row, `laws::round_back` and `laws::round_line_back` that it
//! and a line cover the same backwards. `RoundStep::columns` gives what it covers in a row by `Chords`, which are
//! computed once a width.
//!
//! `Disc::columns` gives what a disc, or the ring in it, covers in a row, by `covers_disc`, and `Disc::rows` the rows
//! outside of which it covers nothing. `laws::disc_round_point` states that a disc is a round line of one vertex,
//! `laws::disc_symmetric` that it is the same in each direction, `laws::disc_border` that its borders belong to it,
//! and `laws::half_ring` that a ring of half the size is the whole disc.
//!
//! Terms: a *segment* joins two vertices of a line. It is *steep* where it goes further down than across.
//! To *turn* a point or a segment is to exchange across and down: what a steep segment covers row by row, a
//! flat one covers column by column. A segment is *short* where its ends lie in pixels of one column or one row,
//! at most its width apart. A *strip* is a segment that is walked row by row, or a turned one.
#![tactic(auto)]

mod chords;
mod columns;
mod disc;
mod distance;
pub mod laws;
mod line;
mod marks;
mod neighbours;
mod number;
mod root;
mod round;
mod round_columns;
mod round_line;
mod round_step;
mod segment;
mod small_distance;
mod square;
mod steps;
mod strip;

pub use chords::Chords;
pub use disc::Disc;
pub use line::Line;
pub use neighbours::are_neighbours;
pub use round::RoundSegment;
pub use round_line::RoundLine;
pub use round_step::RoundStep;
pub use segment::{Segment, is_steep};
pub use square::{Square, single_column};
pub use strip::{RowWalk, Strip, is_small, is_small_point};
