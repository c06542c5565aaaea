//! A picture while it is painted: pixels of rows, boxes and covers get their colours.
//!
//! Proved: each call of `Canvas`, `fill_square`, `fill_disc`, `fill_pixel`, `paint_cover` and `paint_covers` says by `HasRowsFilled` or
//! `IsFilled` which pixels have which colours afterwards, and that all others are as they were. `IsPainted` says the same of
//! shapes in order: a pixel has the colour of the last one that covers it (`covers`, `colour_in`), else the one that it had.
//! `RowLatitudes::bands` has two latitudes for each row, between which all are of that row (`AreBands`). `row_at` gives
//! the row of a latitude (`row_of`).
//!
//! Terms: a *shape* is painted at once: the rings of a polygon, a line, a round line, a square or a disc in one colour, or a pixmap;
//! the outline of a text, or its glyphs. A *canvas* is the picture while it is painted. A *colouring* gives pixels of a row their
//! colours. A *band* is two latitudes between which all are of one row of the picture.
#![tactic(auto)]

mod boxes;
mod canvas;
mod colouring;
mod discs;
mod kept_chords;
mod latitudes;
mod margin_window;
mod rows;

pub use boxes::{fill_pixel, fill_square};
pub use canvas::Canvas;
pub use colouring::Colouring;
pub use discs::fill_disc;
pub use latitudes::{Band, RowLatitudes, row_at};
pub use rows::{paint_cover, paint_covers};
