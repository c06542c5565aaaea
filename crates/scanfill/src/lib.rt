//! The rows of a polygon: its edges clipped to the view and stepped from row to row, and the spans of
//! pixels between them.
//!
//! Proved: `laws::runs` says that the clipped edges and their columns find the very pixels that the even-odd
//! rule finds, for any rings and any view. `EdgeWalk::column` is the least column whose pixel centre the edge
//! crosses at it or left of it (`IsColumn`), in each row that the walk comes to. What `Cover::row` and
//! `Sweep::next` leave are the longest runs of covered pixels, rising (`AreRunsFrom`). By `laws::spans` a
//! pixel lies in one of them exactly where it is covered, and by `laws::one_list_of_runs` a row has one such
//! list. Outside of the rows that `Cover::rows` gives no pixel of the picture is covered. `Flips::add`
//! adds to the flips of each pixel's row, in its column or left of it, what an edge adds to the crossings
//! that the even-odd rule counts (`counts`). The spans that `RowSpans::next` gives of them have the pixels
//! inside and no other (`flipped`).
//!
//! Terms: a *span* is a run of pixels in a row, its end excluded. A *cover* is a shape that covers pixels.
//! A *walk* goes down an edge, row by row. A *flip* is a column, or a pixel, at which a row goes in or out.
//! A *crossing* is an edge as a sweep knows it: left of the view, or walked. A *sweep* gives a polygon's
//! rows from the top.
#![tactic(auto)]

mod box_shape;
mod cover;
mod crossing;
mod crossings;
mod flips;
pub mod laws;
mod polygon;
mod reading;
mod row_crossing;
mod row_flips;
mod row_spans;
mod span;
mod sweep;
mod walk;
mod work;

pub use box_shape::{BoxShape, row_of_box};
pub use clip::RowRange;
pub use cover::Cover;
pub use flips::{FlipFault, Flips, MAX_FLIPS};
pub use polygon::Polygon;
pub use reading::Reading;
pub use row_spans::{RowSpan, RowSpans};
pub use span::{Span, Spans};
pub use sweep::Sweep;
pub use walk::EdgeWalk;
pub use work::Work;
