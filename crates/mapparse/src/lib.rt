//! From the bytes of a mapfile to the map that it describes, or to its first fault.
//!
//! Proved: `parse` gives the map or the fault that the definition `parsed` has for the source, by its
//! clauses `map` and `fault`. `parsed` is the map of what the blocks of the source say, with defaults;
//! `maptree` reads the blocks and reports the faults. A `Mapfile` is read once,
//! names the files that it uses (`Mapfile::wanted`), and becomes the map with them (`Mapfile::into_map`).
//!
//! Terms: the *tree* is the whole mapfile as it is written.
#![tactic(auto)]

mod fault;
mod features;
mod files;
mod font;
mod font_key;
mod mapfile;
mod mapping;
mod named_parts;
mod settings;
mod symbol;
mod table;
mod texts;
mod uses;

pub use fault::{FileCause, FileFault};
pub use files::{FileBytes, Files};
pub use mapfile::{Mapfile, parse, wanted};
pub use maptree::{ParseFault, ParseKind};
