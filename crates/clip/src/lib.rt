//! The rows of a picture that an edge crosses.
//!
//! Proved: `classify` finds the rows whose pixel centres' height an edge crosses, and whether it lies
//! right of the view, left of it or neither (`class_of`). What each of these answers means is `IsClass`.
//! `RowRange::joined` are the rows from the first one to the last one of two groups (`joined`).
//!
//! Terms: a *view* is here the picture's columns and rows. An edge *crosses a row* where it crosses the
//! height of the row's pixel centres. An edge that lies left of the view counts for each pixel of the
//! rows that it crosses, one that lies right of it for none.
#![tactic(auto)]

mod class;
mod index;
mod rows;

pub use class::{EdgeClass, classify, classify_in};
pub use index::clamped;
pub use rows::{RowRange, first_row, rows_of};
