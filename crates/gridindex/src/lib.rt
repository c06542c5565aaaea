//! Boxes of the world in a list, and which of them meet a window, without a test of each.
//!
//! Proved: `Grid::candidates` gives exactly the indices of the boxes that meet the window, ends
//! included, rising and without repeats, by `IsAnswer`; `laws::answers` says that there is one such
//! list. `build`, `extended`, `add` and `clear` say which boxes the grid holds.
//!
//! Terms: a *grid* is a list of boxes with an index of where they lie. Its cells are groups of boxes,
//! not squares of the world: they are small where boxes are crowded. The *order* of a grid has the
//! indices of its boxes, those of boxes that lie near one another side by side. A *group* is a run of
//! the order, and its *cover* a box that encloses its boxes. A *level* has groups of one size, from 16
//! boxes up to 16^7.
#![tactic(auto)]

mod cover;
mod grid;
mod groups;
pub mod laws;
mod level;
mod order;
mod search;

pub use grid::Grid;
