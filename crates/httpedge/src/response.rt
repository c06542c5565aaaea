ghost use Rattle.std.specs.Prelude.{◌≡◌, ◌≤◌, length, OnOk, OnErr, IfErr, MatchResult, true, codes};
ghost use Rattle.operations.specs.Mime.{mime_text};
ghost use Rattle.streams.specs.Sent.{IsSent, IsCut, IsCutSomewhere};
ghost use Rattle.httpedge.specs.Response.{head_end, refusal_lines, busy_lines, body_text, answer_text, response};

use crate::{Outcome, Refusal};
use answers::Answer;
use itoa::Buffer;
use operations::Mime;
use streams::{PutFailed, Sink, WriteFault, put_pieces};

/// The end of a head.
#[tactic(auto, unfolding(crate::specs::Response::head_end))]
pub(crate) fn head_end<'a>(closing: bool) -> &'a [u8]
    ensures text { result.now ≡ head_end closing }
    ensures short { length result.now ≤ 80 }
{
    if closing {
        b"Connection: close\r\n\r\n"
    } else {
        b"\r\n"
    }
}

/// The lines of a refusal.
#[tactic(auto, unfolding(crate::specs::Response::refusal_lines))]
pub(crate) fn refusal_lines(refusal: Refusal) -> &'static [u8]
    ensures text { result.now ≡ refusal_lines refusal }
    ensures short { length result.now ≤ 80 }
{
    match refusal {
        Refusal::BadRequest => b"HTTP/1.1 400 Bad Request\r\nContent-Length: 0\r\n",
        Refusal::NotFound => b"HTTP/1.1 404 Not Found\r\nContent-Length: 0\r\n",
        Refusal::MethodNotAllowed => {
            b"HTTP/1.1 405 Method Not Allowed\r\nAllow: GET\r\nContent-Length: 0\r\n"
        }
    }
}

/// The lines of the response that the server is busy.
#[tactic(auto, unfolding(crate::specs::Response::busy_lines))]
pub(crate) fn busy_lines() -> &'static [u8]
    ensures text { result.now ≡ busy_lines }
    ensures short { length result.now ≤ 80 }
{
    b"HTTP/1.1 503 Service Unavailable\r\nContent-Length: 0\r\n"
}

/// A mime type as it is written.
#[tactic(auto, unfolding(operations::specs::Mime::mime_text))]
pub(crate) fn mime_bytes<'a>(mime: Mime) -> &'a [u8]
    ensures text { result.now ≡ mime_text mime }
    ensures short { length result.now ≤ 64 }
{
    match mime {
        Mime::Png => b"image/png",
        Mime::Pixmap => b"image/x-portable-pixmap",
        Mime::ArbitraryMap => b"image/x-portable-arbitrarymap",
        Mime::Xml => b"text/xml",
        Mime::Plain => b"text/plain",
    }
}

// Writes an answer, of whose body this is the length in digits: its head, and its body, which isn't copied.
#[tactic(auto, unfolding(crate::specs::Response::body_text))]
fn send_body<'a, W: Sink>(
    answer: &'a Answer,
    count: &'a [u8],
    closing: bool,
    writer: &mut W,
) -> Result<(), PutFailed>
    ensures sent { OnOk result
        (IsSent W.held W.taken writer.old
        (body_text (mime_text answer.now.mime) count.now answer.now.body closing) writer.new) }
    ensures cut { OnErr result
        (IsCutSomewhere W.held W.taken writer.old
        (body_text (mime_text answer.now.mime) count.now answer.now.body closing) writer.new) }
    ensures flag { MatchResult result (λ _. W.put_failed writer.new ≡ W.put_failed writer.old)
        (λ _. W.put_failed writer.new ≡ true) }
{
    put_pieces(
        writer,
        &[
            b"HTTP/1.1 200 OK\r\nContent-Type: ",
            mime_bytes(answer.mime),
            b"\r\nContent-Length: ",
            count,
            b"\r\n",
            head_end(closing),
            answer.body.as_slice(),
        ],
    )
}

// Writes an answer.
fn send_answer<W: Sink>(answer: &Answer, closing: bool, writer: &mut W) -> Result<(), PutFailed>
    ensures sent { OnOk result (IsSent W.held W.taken writer.old (answer_text answer.now closing) writer.new) }
    ensures cut { OnErr result (IsCutSomewhere W.held W.taken writer.old (answer_text answer.now closing) writer.new) }
    ensures flag { MatchResult result (λ _. W.put_failed writer.new ≡ W.put_failed writer.old)
        (λ _. W.put_failed writer.new ≡ true) }
{
    let mut digits = Buffer::new();
    let count = digits.format(answer.body.len() as u64).as_bytes();
    send_body(answer, count, closing, writer)
}

// Writes an outcome.
fn send<W: Sink>(outcome: &Outcome, closing: bool, writer: &mut W) -> Result<(), PutFailed>
    ensures sent { OnOk result (IsSent W.held W.taken writer.old (response outcome.now closing) writer.new) }
    ensures cut { OnErr result (IsCutSomewhere W.held W.taken writer.old (response outcome.now closing) writer.new) }
    ensures flag { MatchResult result (λ _. W.put_failed writer.new ≡ W.put_failed writer.old)
        (λ _. W.put_failed writer.new ≡ true) }
{
    match outcome {
        Outcome::Answered(answer) => send_answer(answer, closing, writer),
        Outcome::Refused(refusal) => {
            put_pieces(writer, &[refusal_lines(*refusal), head_end(closing)])
        }
        Outcome::Busy => put_pieces(writer, &[busy_lines(), head_end(closing)]),
    }
}

/// Writes an outcome, which is the last of its connection where it is `closing`. The error is that the writer
/// failed: exactly the first `written` bytes of the response were written, and not all of them.
///
/// It takes no memory.
pub fn respond<W: Sink>(outcome: &Outcome, closing: bool, writer: &mut W) -> Result<(), WriteFault>
    ensures sent { OnOk result (IsSent W.held W.taken writer.old (response outcome.now closing) writer.new) }
    ensures cut { IfErr result
        (λ fault. IsCut W.held W.taken writer.old (response outcome.now closing) fault.written writer.new) }
    ensures flag { MatchResult result (λ _. W.put_failed writer.new ≡ W.put_failed writer.old)
        (λ _. W.put_failed writer.new ≡ true) }
{
    let before = writer.taken();
    match send(outcome, closing, writer) {
        Ok(()) => Ok(()),
        Err(PutFailed) => Err(WriteFault::since(writer, before)),
    }
}
