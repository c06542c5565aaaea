ghost use Rattle.std.specs.Prelude.{◌≡◌, OnOk, OnErr, MatchResult, true};
ghost use Rattle.streams.specs.Sent.{IsSent, IsCutSomewhere};
ghost use Rattle.administration.specs.Serving.{done_line, ends};

use batches::BatchFault;
use mapmachine::Reply;
use scripts::send_reply;
use streams::{PutFailed, Sink, put_all};

/// The result of a command.
#[derive(Clone, Copy)]
pub enum Done {
    /// All that was pending is published, and the sequence is this.
    Published(u64),
    /// The pending batches are still pending: there was no memory to publish them.
    Held,
    /// The batch has this first fault.
    Refused(BatchFault),
    /// Memory was refused for the batch.
    NoMemory,
    /// Nothing was pending.
    Idle,
    /// It was no command.
    Malformed,
}

impl Done {
    // Whether the connection ends with it.
    pub(crate) fn ends(self) -> bool
        ensures { result ≡ ends self }
    {
        matches!(self, Done::Malformed)
    }
}

// Writes the line that reports the result of a command.
pub(crate) fn send_line<O: Sink>(writer: &mut O, done: Done) -> Result<(), PutFailed>
    ensures sent { OnOk result (IsSent O.held O.taken writer.old (done_line done) writer.new) }
    ensures cut { OnErr result (IsCutSomewhere O.held O.taken writer.old (done_line done) writer.new) }
    ensures flag { MatchResult result (λ _. O.put_failed writer.new ≡ O.put_failed writer.old) (λ _. O.put_failed writer.new ≡ true) }
{
    match done {
        Done::Published(sequence) => send_reply(writer, &Reply::Published(sequence)),
        Done::Held => put_all(writer, b"HELD\n"),
        Done::Refused(fault) => send_reply(writer, &Reply::Refused(fault)),
        Done::NoMemory => put_all(writer, b"NOMEMORY\n"),
        Done::Idle => put_all(writer, b"IDLE\n"),
        Done::Malformed => put_all(writer, b"MALFORMED\n"),
    }
}
