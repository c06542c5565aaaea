//! Shapes as they lie from another pixel of the picture: definitions and laws alone.
//!
//! Proved: from the corner of a block of a picture, what is painted covers in each column and row what it covers that many columns and
//! rows behind the corner (`laws`): rings, lines, squares, stamps and their colours, and the ink and the outlines of texts.
//!
//! Terms: the *corner* is the pixel that columns, rows and points are counted *from*.
#![tactic(auto)]

pub mod laws;
