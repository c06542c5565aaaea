ghost use Rattle.std.specs.Prelude.{◌≡◌, ◌++◌, codes};
ghost use Rattle.console.specs.Console.{IsReported};
ghost use Rattle.subcommands.specs.Mapfiles.{explained_fault};
ghost use Rattle.subcommands.specs.Reports.{cause_message, file_fault, mapfile_fault};

use crate::unread::UnreadCause;
use console::{Writes, report};
use itoa::Buffer;
use mapdefs::Text;
use mapwords::Fault;
use streams::Sink;

// Why a file can't be read, in a message that follows its name.
#[tactic(auto, unfolding(crate::specs::Reports::cause_message))]
fn cause_message(cause: UnreadCause) -> &'static str
    ensures { result.now ≡ cause_message cause }
{
    match cause {
        UnreadCause::Missing => ": the file is missing\n",
        UnreadCause::NotAllowed => ": the file may not be read\n",
        UnreadCause::Other => ": the file can't be read\n",
    }
}

// Reports a file that can't be read: its name, and on a second line its name and the message on the cause.
fn report_with_cause<'a, E: Sink>(errors: &mut E, name: &'a [u8], message: &'a [u8])
    ensures { IsReported (⟦<E as Writes>⟧.state errors.old) (⟦<E as Writes>⟧.state errors.new)
        (codes "fault file " ++ (name.now ++ (codes "\n" ++ (name.now ++ message.now)))) }
{
    report(errors, &[b"fault file ", name, b"\n", name, message]);
}

/// Reports a file that can't be read: its name, and, where that is requested, the cause.
pub fn report_file<E: Sink>(errors: &mut E, explains: bool, name: &str, cause: UnreadCause)
    ensures { IsReported (⟦<E as Writes>⟧.state errors.old) (⟦<E as Writes>⟧.state errors.new)
        (file_fault explains name.now cause) }
{
    if explains {
        report_with_cause(errors, name.as_bytes(), cause_message(cause).as_bytes());
    } else {
        report(errors, &[b"fault file ", name.as_bytes(), b"\n"]);
    }
}

/// Reports the fault of a mapfile: its line and the number of its kind.
pub fn report_mapfile_fault<E: Sink>(errors: &mut E, line: u64, kind: u8)
    ensures { IsReported (⟦<E as Writes>⟧.state errors.old) (⟦<E as Writes>⟧.state errors.new)
        (mapfile_fault line kind) }
{
    let (mut line_digits, mut kind_digits) = (Buffer::new(), Buffer::new());
    let line = line_digits.format(line).as_bytes();
    let kind = kind_digits.format(kind).as_bytes();
    report(errors, &[b"fault line ", line, b" kind ", kind, b"\n"]);
}

/// Reports the fault of a mapfile, and the message on it, if there is one.
pub fn report_explained<E: Sink>(errors: &mut E, name: &str, fault: Fault, message: &Option<Text>)
    ensures { IsReported (⟦<E as Writes>⟧.state errors.old) (⟦<E as Writes>⟧.state errors.new)
        (explained_fault name.now fault message.now) }
{
    let Fault { line, kind } = fault;
    let Some(message) = message else {
        report_mapfile_fault(errors, line, kind.number());
        return;
    };
    let (mut line_digits, mut kind_digits) = (Buffer::new(), Buffer::new());
    let line = line_digits.format(line).as_bytes();
    let kind = kind_digits.format(kind.number()).as_bytes();
    report(
        errors,
        &[
            b"fault line ",
            line,
            b" kind ",
            kind,
            b"\n",
            name.as_bytes(),
            b":",
            line,
            b": ",
            message.as_str().as_bytes(),
            b"\n",
        ],
    );
}
