//! Messages for people on the first fault of a mapfile.
//!
//! `explain` reads a source once more, up to its first fault, and keeps what is open there. Proved, by
//! `IsFinding`: it has the line and the kind of the fault that the definition `tree_of` of `maptree` is for the
//! source. It also has the token that is refused with that fault, and what is open before it. There is no token
//! where the fault comes after the last one. Of the messages, which `Explained::message` makes of that, only the one
//! on a bad byte is proved, by `IsOnSource`; the words of the others are tested.
//!
//! Terms: the *openings* are the contexts that are open, with the word that opened each.
#![tactic(auto)]

mod columns;
mod expected_text;
mod file_messages;
mod finding;
mod foreign;
mod openings;
mod quoted;
mod sentence;
mod unread_value;

pub use file_messages::{MapfileAtHand, message_on_files, missing_name};
pub use finding::{Explained, Finding, explain};
pub use sentence::message_on_source;
