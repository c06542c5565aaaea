ghost use Rattle.std.specs.Prelude.{◌≡◌, ◌++◌, codes, OnOk, OnErr, MatchResult, true};
ghost use Rattle.streams.specs.Sent.{IsSent, IsCutSomewhere};
ghost use Rattle.scripts.specs.Transcript.{hex_lines, body_text, answer_line, reply_text, script_fault};

use crate::hexadecimal::{LINE, fill_lines};
use itoa::Buffer;
use mapmachine::{Answer, BatchFault, Mime, Reply};
use streams::{PutFailed, Sink, put_all, put_pieces};

// The most bytes that are put into lines at once: 63 lines of 65 bytes, 4,095 in all.
const BLOCK: usize = 63 * LINE;

// How many bytes those lines have.
const ROOM: usize = 63 * (2 * LINE + 1);

// Writes the line before the body of an answer.
fn send_answer_line<S: Sink>(sink: &mut S, answer: &Answer) -> Result<(), PutFailed>
    ensures sent { OnOk result (IsSent S.held S.taken sink.old (answer_line answer.now) sink.new) }
    ensures cut { OnErr result (IsCutSomewhere S.held S.taken sink.old (answer_line answer.now) sink.new) }
    ensures flag { MatchResult result (λ _. S.put_failed sink.new ≡ S.put_failed sink.old) (λ _. S.put_failed sink.new ≡ true) }
{
    let mut digits = Buffer::new();
    let count = digits.format(answer.body.len() as u64).as_bytes();
    let mime = answer.mime.text().as_bytes();
    put_pieces(sink, &[b"ANSWER ", mime, b" ", count, b"\n"])
}

// Writes bytes in hexadecimal, 32 a line.
fn send_hex<S: Sink>(sink: &mut S, bytes: &[u8]) -> Result<(), PutFailed>
    ensures sent { OnOk result (IsSent S.held S.taken sink.old (hex_lines bytes.now) sink.new) }
    ensures cut { OnErr result (IsCutSomewhere S.held S.taken sink.old (hex_lines bytes.now) sink.new) }
    ensures flag { MatchResult result (λ _. S.put_failed sink.new ≡ S.put_failed sink.old) (λ _. S.put_failed sink.new ≡ true) }
{
    let mut lines = [0; ROOM];
    let mut rest = bytes;
    while !rest.is_empty() {
        let (block, others) = rest.split_at(rest.len().min(BLOCK));
        let count = fill_lines(block, &mut lines);
        put_all(sink, &lines[..count])?;
        rest = others;
    }
    Ok(())
}

// Writes the body of an answer.
fn send_body<S: Sink>(sink: &mut S, mime: Mime, body: &[u8]) -> Result<(), PutFailed>
    ensures sent { OnOk result (IsSent S.held S.taken sink.old (body_text mime body.now) sink.new) }
    ensures cut { OnErr result (IsCutSomewhere S.held S.taken sink.old (body_text mime body.now) sink.new) }
    ensures flag { MatchResult result (λ _. S.put_failed sink.new ≡ S.put_failed sink.old) (λ _. S.put_failed sink.new ≡ true) }
{
    match mime {
        Mime::Png | Mime::Pixmap | Mime::ArbitraryMap => send_hex(sink, body),
        Mime::Xml | Mime::Plain => put_all(sink, body),
    }
}

// Writes an answer.
fn send_answer<S: Sink>(sink: &mut S, answer: &Answer) -> Result<(), PutFailed>
    ensures sent { OnOk result (IsSent S.held S.taken sink.old (reply_text (Reply.Answered answer.now)) sink.new) }
    ensures cut { OnErr result (IsCutSomewhere S.held S.taken sink.old (reply_text (Reply.Answered answer.now)) sink.new) }
    ensures flag { MatchResult result (λ _. S.put_failed sink.new ≡ S.put_failed sink.old) (λ _. S.put_failed sink.new ≡ true) }
{
    send_answer_line(sink, answer)?;
    send_body(sink, answer.mime, answer.body.as_slice())
}

// Writes that a batch was published, with its number.
fn send_published<S: Sink>(sink: &mut S, sequence: u64) -> Result<(), PutFailed>
    ensures sent { OnOk result (IsSent S.held S.taken sink.old (reply_text (Reply.Published sequence)) sink.new) }
    ensures cut { OnErr result (IsCutSomewhere S.held S.taken sink.old (reply_text (Reply.Published sequence)) sink.new) }
    ensures flag { MatchResult result (λ _. S.put_failed sink.new ≡ S.put_failed sink.old) (λ _. S.put_failed sink.new ≡ true) }
{
    let mut digits = Buffer::new();
    let number = digits.format(sequence).as_bytes();
    put_pieces(sink, &[b"PUBLISHED ", number, b"\n"])
}

// Writes the fault of a batch: the number of its command and that of its kind.
fn send_refused<S: Sink>(sink: &mut S, fault: BatchFault) -> Result<(), PutFailed>
    ensures sent { OnOk result (IsSent S.held S.taken sink.old (reply_text (Reply.Refused fault)) sink.new) }
    ensures cut { OnErr result (IsCutSomewhere S.held S.taken sink.old (reply_text (Reply.Refused fault)) sink.new) }
    ensures flag { MatchResult result (λ _. S.put_failed sink.new ≡ S.put_failed sink.old) (λ _. S.put_failed sink.new ≡ true) }
{
    let (mut index_digits, mut kind_digits) = (Buffer::new(), Buffer::new());
    let index = index_digits.format(fault.index).as_bytes();
    let kind = kind_digits.format(fault.kind.number()).as_bytes();
    put_pieces(sink, &[b"REFUSED ", index, b" ", kind, b"\n"])
}

/// Writes a reply.
pub fn send_reply<S: Sink>(sink: &mut S, reply: &Reply) -> Result<(), PutFailed>
    ensures sent { OnOk result (IsSent S.held S.taken sink.old (reply_text reply.now) sink.new) }
    ensures cut { OnErr result (IsCutSomewhere S.held S.taken sink.old (reply_text reply.now) sink.new) }
    ensures flag { MatchResult result (λ _. S.put_failed sink.new ≡ S.put_failed sink.old) (λ _. S.put_failed sink.new ≡ true) }
{
    match reply {
        Reply::Answered(answer) => send_answer(sink, answer),
        Reply::Published(sequence) => send_published(sink, *sequence),
        Reply::Refused(fault) => send_refused(sink, *fault),
        Reply::NoMemory => put_all(sink, b"NOMEMORY\n"),
    }
}

/// Writes the fault of a script whose command of that number is unreadable.
pub fn send_script_fault<S: Sink>(sink: &mut S, number: u64) -> Result<(), PutFailed>
    ensures sent { OnOk result (IsSent S.held S.taken sink.old (script_fault number) sink.new) }
    ensures cut { OnErr result (IsCutSomewhere S.held S.taken sink.old (script_fault number) sink.new) }
    ensures flag { MatchResult result (λ _. S.put_failed sink.new ≡ S.put_failed sink.old) (λ _. S.put_failed sink.new ≡ true) }
{
    let mut digits = Buffer::new();
    let number = digits.format(number).as_bytes();
    put_pieces(sink, &[b"fault script ", number, b"\n"])
}
