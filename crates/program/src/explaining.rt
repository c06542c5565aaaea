ghost use Rattle.std.specs.Prelude.{◌≡◌, IfErr};
ghost use Rattle.program.specs.Explaining.{ExplainsEnd, HasSaid, cause_message, explains_end, sentence_on};

use commandline::Command;
use console::{Failure, ListenCause, Writes, report};
use itoa::Buffer;
use streams::Sink;

/// Whether a command explains how it ends.
pub(crate) fn explains_end(command: Command<'_>) -> bool
    ensures { result ≡ explains_end command.entry }
{
    match command {
        Command::Session => false,
        Command::Check { explains, .. } => explains,
        Command::Run { explains, .. } => explains,
        Command::Serve { explains, .. } => explains,
    }
}

// Why a port can't be listened on.
#[tactic(auto, unfolding(crate::specs::Explaining::cause_message))]
fn cause_message(cause: ListenCause) -> &'static [u8]
    ensures { result.now ≡ cause_message cause }
{
    match cause {
        ListenCause::Taken => b" is taken\n",
        ListenCause::NotAllowed => b" may not be listened on\n",
        ListenCause::Other => b" can't be listened on\n",
    }
}

// Reports the message on a failure, if there is one.
#[tactic(auto, unfolding(crate::specs::Explaining::sentence_on))]
fn report_failure<E: Sink>(failure: Failure, errors: &mut E)
    ensures { HasSaid (sentence_on failure) (⟦<E as Writes>⟧.state errors.old) (⟦<E as Writes>⟧.state errors.new) }
{
    match failure {
        Failure::OutputFailed => report(errors, &[b"error: standard output can't be written\n"]),
        Failure::ListenFailed { port, cause } => {
            let mut digits = Buffer::new();
            let port = digits.format(port).as_bytes();
            let cause = cause_message(cause);
            report(errors, &[b"error: port ", port, b" of 127.0.0.1", cause])
        }
        Failure::SocketFailed => report(
            errors,
            &[b"error: a port gives no connections, or a thread can't be started\n"],
        ),
        Failure::WatchFailed => report(errors, &[b"error: standard input can't be read\n"]),
        Failure::NoMemory => report(errors, &[b"error: out of memory\n"]),
        Failure::MapfileFault
        | Failure::JournalFault
        | Failure::JournalFailed
        | Failure::FileFailed
        | Failure::ArgumentsRefused
        | Failure::InputFailed => {}
    }
}

/// Reports the message on how the program ends, where that is requested, and no other line has reported it.
pub(crate) fn explain_end<E: Sink>(explains: bool, outcome: Result<(), Failure>, errors: &mut E)
    ensures { ExplainsEnd explains outcome (⟦<E as Writes>⟧.state errors.old) (⟦<E as Writes>⟧.state errors.new) }
{
    match (explains, outcome) {
        (true, Err(failure)) => report_failure(failure, errors),
        _ => {}
    }
}
