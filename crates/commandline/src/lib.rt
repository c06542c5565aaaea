//! The command line of the program: the command of its arguments.
//!
//! Proved: `command` finds the command of the arguments by `clap`'s matches (`command`), where the command line takes
//! them (`taken`, `refused`). A law states the commands of some arguments that are written out (`laws`).
//!
//! Terms: the *arguments* are those after the program's name: there are none, or the first is a *subcommand*, `check`,
//! `run` or `serve`. They give a *command*.
#![tactic(auto)]

mod arguments;
mod commands;
pub mod laws;
mod options;
mod subcommand;
mod version;

pub use arguments::{WordsFault, command};
pub use subcommand::{Command, MAX_CHECKPOINT, MAX_IDLE, MAX_TIMEOUT, MAX_WORKERS, Service};
