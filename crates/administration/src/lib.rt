//! The administration of a shared map over a stream: a client's commands come in, and a line reports the result of each.
//!
//! Proved: `administer` reads commands up to the client's end, to one that is malformed or to a fault, does one after the other, and
//! writes their lines in order (`served`). Where the writer fails, the command whose line it was is done all the same (`stopped`).
//! Nothing is read after a command before its line is written. `administer_kept` keeps each accepted batch before it is published
//! (`kept`). Up to 64 that came together are kept by one sync, and published before their lines are written: where the writer fails,
//! these alone are done without their lines (`stopped`), and where the keeper fails, these alone may be kept or not (`failed`).
//!
//! Terms: a *command* is a line, and the bytes of a batch where the line announces them. A *line* ends with an LF. One that has no LF
//! within 33 bytes is *malformed*, as is any other that is no command. The *keeper* keeps each accepted batch.
#![tactic(auto)]

mod client;
mod done;
mod group;
mod keeping;
mod line;
mod reading;
mod results;
mod serving;

pub use client::Client;
pub use done::Done;
pub use group::MAX_GROUP;
pub use keeping::{AdministerFault, administer_kept};
pub use line::{ClientLine, MAX_LINE_BYTES};
pub use reading::ReadCommand;
pub use serving::administer;
