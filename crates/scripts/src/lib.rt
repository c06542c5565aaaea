//! Scripts: lists of commands for the map machine, and the transcript of its replies.
//!
//! Proved: `play_script` plays a script on a machine and writes the whole transcript of its replies, or exactly the
//! first bytes of it where the writer fails. Of an unreadable script it writes the fault and plays nothing.
//! `laws::written_script_is_read`: a script that is written out from events is read as these.
//! `laws::digits_stand_for_body`: the lines of a picture are the text of its bytes.
//!
//! Terms: a *script* is a list of commands, a query on a line or a line and the bytes of a batch. Its *events* are what
//! they request of the machine. The *transcript* is the text of the replies.
#![tactic(auto)]

mod hexadecimal;
pub mod laws;
mod play;
mod script;
mod sending;

pub use play::play_script;
pub use sending::send_reply;
