//! Tables of points: from the bytes of a CSV file to features.
//!
//! Proved: `read` gives the table of a text or its first fault, by its clauses `table` and `fault`, which
//! cite `table_of`. The crate `csv` says what the records of a text are. Each feature of a table has one
//! point, and one value for each column (`IsTable`). A table has the names of its header, and a feature
//! for each row (`laws`).
//!
//! Terms: a *record* is what the crate `csv` reads as one, with its *fields*. The first is the *header*,
//! which names the *columns*; the others are *rows*. Records are numbered from 1.
#![tactic(auto)]

mod fault;
mod header;
pub mod laws;
mod row;
mod rows;
mod source;
mod table;

pub use fault::{CsvError, CsvFault, CsvKind};
pub use rows::Rows;
pub use table::{Table, TableFields, read};
