//! The program on a host, which opens files by their paths and listens on ports: from its arguments to its exit status.
//!
//! Proved over every host: `Program::answer` performs the command of the arguments (`answers`), and `Program::perform` a
//! command, with the files of the names in it (`performs`). `Program::serve_map` listens on the two ports of a service, and
//! serves the map as it begins there; the `Ending` has the map and the ports. `HostFile` and `HostFolder` give the bytes that
//! the host is known to have.
//!
//! `SystemHost` is the machine that the program runs on. Nothing is known of the bytes that its files and sockets give.
#![tactic(auto)]

mod arguments;
mod causes;
mod ending;
mod explaining;
mod files;
mod host;
mod journal_file;
mod keeping;
mod known;
mod performing;
mod program;
mod serving;
mod system;

pub use arguments::ArgumentsUnread;
pub use ending::Ending;
pub use files::{HostFile, HostFolder};
pub use host::{Files, Host, ListenFailed, OpenFault};
pub use journal_file::JournalFile;
pub use keeping::JournalFault;
pub use program::Program;
pub use serving::JournaledService;
pub use system::{SystemHost, read_arguments};
