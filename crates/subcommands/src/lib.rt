//! The subcommands of the program, over its three streams: it plays sessions, checks mapfiles, and runs scripts on
//! their maps.
//!
//! Proved: `session` reads its input up to the end. Its result names the text that was written: the whole transcript of
//! the map machine's replies, or exactly the first bytes of it, or the fault of the mapfile (`plays`). `check` and
//! `run` do the same for the files that they read, and for the messages and warnings that are reported (`checks`,
//! `runs`). `split_session` splits a session at its first line of two percent signs. `summary` returns how many bytes
//! were written where the writer fails.
#![tactic(auto)]

mod checking;
mod folder;
mod job;
mod line;
mod map_fault;
mod map_summary;
mod parts;
mod places;
mod playing;
mod reading;
mod reports;
mod running;
mod unread;

pub use checking::check;
pub use folder::{Folder, LookedFor, parent_of, path_of};
pub use job::{Job, NamedFile};
pub use map_summary::summary;
pub use parts::split_session;
pub use playing::session;
pub use reading::{ReadMap, read_map};
pub use running::run;
pub use scripts::play_script;
pub use unread::{FileFault, FileReader, UnreadCause};
