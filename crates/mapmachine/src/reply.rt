use answers::Answer;
use batches::{BatchFault, Bytes};

/// What comes to the machine.
#[derive(Drop)]
pub enum Event<'a> {
    /// The query part of a request, as its bytes came.
    Query(Bytes<'a>),
    /// A batch of commands that change the map, as its bytes came.
    Batch(Bytes<'a>),
}

/// The machine's reply to an event.
#[derive(Drop)]
pub enum Reply {
    /// The query was answered.
    Answered(Answer),
    /// The batch was published: all of its commands were applied, and it has this number.
    Published(u64),
    /// The batch has this first fault, and nothing was changed.
    Refused(BatchFault),
    /// Memory was refused, and nothing was changed.
    NoMemory,
}
