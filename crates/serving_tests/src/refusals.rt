use crate::exchanges::{WHOLE, exchanged};
use crate::narrow::holding_nothing;
use httpedge::{Asks, Busy, Conn, Outcome, Refusal, Session, exchange, respond};
use mapdefs::Items;
use mapmachine::{Answer, Mime};
use std::alloc::{AllocError, Global};
use streams::Flagged;
use test_tables::{TableFault, check_rows};

// An answerer that is busy. It counts the queries.
#[derive(Drop)]
struct Closed {
    queries: usize,
}

impl Asks for Closed {
    ghost use Rattle.std.specs.Prelude.{◌≡◌, Err};
    ghost use Rattle.answers.specs.declared.asks.Busy.{Busy};

    ghost answers = { λ old query said new. said ≡ Err (record {}) };

    fn answer(&mut self, _query: &[u8]) -> Result<Answer, Busy> {
        self.queries = self.queries.saturating_add(1);
        Err(Busy)
    }
}

// How many queries it got, the result, whether reading and writing failed, and the response, `|` and a stream. CR is
// written `^` and LF `~`.
const REFUSALS: &str = "\
0 Ok(()) false false |
0 Ok(()) false false HTTP/1.1 400 Bad Request^~Content-Length: 0^~Connection: close^~^~|GET /wms HTTP/1.1^~Host: x^~^
0 Ok(()) false false HTTP/1.1 405 Method Not Allowed^~Allow: GET^~Content-Length: 0^~^~|POST /wms HTTP/1.1^~^~
0 Ok(()) false false HTTP/1.1 405 Method Not Allowed^~Allow: GET^~Content-Length: 0^~Connection: close^~^~|POST /x HTTP/1.0^~^~
0 Ok(()) false false HTTP/1.1 404 Not Found^~Content-Length: 0^~^~|GET /x HTTP/1.1^~^~
# a busy server, which goes on
1 Ok(()) false false HTTP/1.1 503 Service Unavailable^~Content-Length: 0^~^~|GET /wms HTTP/1.1^~Host: x^~^~
# what follows a refusal is answered, up to a head that closes
1 Ok(()) false false HTTP/1.1 404 Not Found^~Content-Length: 0^~^~HTTP/1.1 503 Service Unavailable^~Content-Length: 0^~Connection: close^~^~|GET /x HTTP/1.1^~^~GET /wms HTTP/1.1^~Connection: close^~^~GET /wms HTTP/1.1^~^~
1 Ok(()) false false HTTP/1.1 405 Method Not Allowed^~Allow: GET^~Content-Length: 0^~^~HTTP/1.1 503 Service Unavailable^~Content-Length: 0^~Connection: close^~^~|POST /wms HTTP/1.1^~Content-Length: 0^~^~GET /wms HTTP/1.0^~^~
# a head that announces a body, before 405 and 404: no byte after it is a request
0 Ok(()) false false HTTP/1.1 400 Bad Request^~Content-Length: 0^~Connection: close^~^~|GET /wms HTTP/1.1^~Content-Length: 5^~^~hello
0 Ok(()) false false HTTP/1.1 400 Bad Request^~Content-Length: 0^~Connection: close^~^~|POST /x HTTP/1.1^~Transfer-Encoding: chunked^~^~GET /wms HTTP/1.1^~^~";

// A text in the form of rows.
fn written(alloc: Global, bytes: &[u8]) -> Result<String, AllocError> {
    let text = str::from_utf8(bytes).unwrap_or("bytes that are no text");
    let text = text.replace(alloc, '\r', "^")?;
    text.replace(alloc, '\n', "~")
}

// A stream of a text, where CR is written `^` and LF `~`, and so many further bytes.
fn stream(alloc: Global, text: &str, more: usize) -> Result<Vec<u8>, AllocError> {
    let text = text.replace(alloc, '^', "\r")?;
    let text = text.replace(alloc, '~', "\n")?;
    let mut bytes = Vec::new(alloc);
    bytes.extend_from_slice(text.as_str().as_bytes())?;
    for _ in 0..more {
        bytes.push(b'x')?;
    }
    Ok(bytes)
}

fn rows_of_refusals(alloc: Global, row: &str) -> Result<String, AllocError> {
    let stream = stream(alloc, row, 0)?;
    let mut closed = Closed { queries: 0 };
    let done = exchanged(alloc, &stream, WHOLE, &mut closed)?;
    let (queries, result) = (closed.queries, done.result);
    let held = written(alloc, &done.held)?;
    format!(in alloc;
        "{queries} {result:?} {} {} {held}",
        done.take_failed, done.put_failed
    )
}

#[test]
fn streams_are_refused_without_asking_and_busy_is_reported(
    rt: HostRuntime,
) -> Result<(), TableFault> {
    check_rows(rt.alloc(), REFUSALS, '|', 10, rows_of_refusals)
}

// The text of an exchange whose reader fails after so many reads.
fn result_of_reads(
    alloc: Global,
    stream: &[u8],
    at_once: usize,
    calls: usize,
) -> Result<String, AllocError> {
    let mut conn = Conn::new(alloc)?;
    let mut reader = Flagged::new(holding_nothing(alloc, stream, at_once, calls));
    let mut writer = Flagged::new(Vec::new(alloc));
    let result = exchange(
        &mut conn,
        &mut reader,
        &mut writer,
        &mut Closed { queries: 0 },
    );
    let left = reader.inner().calls;
    let held = writer.into_inner();
    let status = str::from_utf8(held.get(9..12).unwrap_or(b"none")).unwrap_or("no text");
    format!(in alloc;
        "{} {left} {result:?} {} {status}",
        reader.reads(),
        reader.take_failed()
    )
}

// How many bytes come at once in how many reads, how many bytes follow the text, and the text.
fn reads_of(row: &str) -> Option<(usize, usize, usize, &str)> {
    let (at_once, rest) = row.split_once(' ')?;
    let (calls, rest) = rest.split_once(' ')?;
    let (more, text) = rest.split_once(' ').unwrap_or((rest, ""));
    Some((
        at_once.parse::<usize>().ok()?,
        calls.parse::<usize>().ok()?,
        more.parse::<usize>().ok()?,
        text,
    ))
}

fn rows_of_reads(alloc: Global, row: &str) -> Result<String, AllocError> {
    let Some((at_once, calls, more, text)) = reads_of(row) else {
        return String::from_str(alloc, "malformed");
    };
    let stream = stream(alloc, text, more.min(20_000))?;
    result_of_reads(alloc, &stream, at_once, calls)
}

// How often it was read, how many reads wouldn't have failed yet, the result, whether reading failed, and the status
// that was sent. After the `|`: how many bytes come at once, after how many reads the reader fails, how many bytes
// follow a text, and the text. CR is written `^` and LF `~`.
const READS: &str = "\
# a whole head that ends the connection, in one piece: a further read would fail
1 0 Ok(()) false 503|1000 1 0 GET /wms HTTP/1.0^~Host: x^~^~
1 0 Ok(()) false 404|1000 1 0 GET /x HTTP/1.1^~connection: Close^~^~
1 0 Ok(()) false 400|1000 1 0 POST /wms HTTP/1.1^~Content-Length: 5^~^~
# bytes that begin no head
1 0 Ok(()) false 400|1000 1 0 {}~
# a head that goes on is answered, and then it is read on
2 0 Err(Read { written: 55 }) true 503|1000 1 0 GET /wms HTTP/1.1^~Host: x^~^~
2 0 Ok(()) false 503|1000 2 0 GET /wms HTTP/1.1^~Host: x^~^~
# and two heads of one piece are, before a further read
2 0 Err(Read { written: 100 }) true 404|1000 1 0 GET /x HTTP/1.1^~^~GET /wms HTTP/1.1^~^~
# bytes after the last head: in its piece, and in pieces that aren't read
1 0 Ok(()) false 404|1000 1 900 GET /x HTTP/1.0^~^~
1 0 Ok(()) false 404|1000 1 9000 GET /x HTTP/1.0^~^~
# 19 bytes, 7 at once
3 0 Ok(()) false 404|7 3 0 GET /x HTTP/1.0^~^~
3 2 Ok(()) false 404|7 5 0 GET /x HTTP/1.0^~^~
3 0 Err(Read { written: 0 }) true none|7 2 0 GET /x HTTP/1.0^~^~
1 0 Err(Read { written: 0 }) true none|7 0 0 GET /x HTTP/1.0^~^~
# the end comes in the head, or at once
2 0 Ok(()) false 400|1000 2 0 GET /x HTTP/1.1^~^
1 0 Ok(()) false none|1000 1 0
# a head that doesn't end: the 16,384th byte decides, or the end after one less
16384 0 Ok(()) false 400|1 16384 20000 GET / HTTP/1.1^~A:
16384 0 Ok(()) false 400|1 16384 16365 GET / HTTP/1.1^~A:
16384 0 Err(Read { written: 0 }) true none|1 16383 20000 GET / HTTP/1.1^~A:
# and in pieces of at most 4,096 bytes
4 5 Ok(()) false 400|1000000 9 20000 GET / HTTP/1.1^~A:";

#[test]
fn streams_are_read_up_to_what_decides(rt: HostRuntime) -> Result<(), TableFault> {
    check_rows(rt.alloc(), READS, '|', 19, rows_of_reads)
}

// The text of an outcome.
fn response(alloc: Global, outcome: &Outcome, closing: bool) -> Result<String, AllocError> {
    let mut writer = Flagged::new(Vec::new(alloc));
    match respond(outcome, closing, &mut writer) {
        Ok(()) => written(alloc, &writer.into_inner()),
        Err(fault) => format!(in alloc; "{fault}"),
    }
}

// The text of a picture of one pixel.
fn picture(alloc: Global) -> Result<String, AllocError> {
    let mut body = Vec::new(alloc);
    body.extend_from_slice(b"P6\n1 1\n255\n\x0a\x14\x1e")?;
    let outcome = Outcome::Answered(Answer {
        mime: Mime::Pixmap,
        body: Items::of(body),
    });
    response(alloc, &outcome, true)
}

// The status of a refusal, and its text.
fn refused(alloc: Global, refusal: Refusal) -> Result<String, AllocError> {
    let closing = matches!(refusal, Refusal::BadRequest);
    let response = response(alloc, &Outcome::Refused(refusal), closing)?;
    format!(in alloc; "{}: {response}", refusal.status())
}

// Responses, after their status where it is a refusal, `|` and the outcomes.
const RESPONSES: &str = "\
HTTP/1.1 200 OK^~Content-Type: image/x-portable-pixmap^~Content-Length: 14^~Connection: close^~^~P6~1 1~255~~\x14\x1e|picture
400 Bad Request: HTTP/1.1 400 Bad Request^~Content-Length: 0^~Connection: close^~^~|BadRequest
404 Not Found: HTTP/1.1 404 Not Found^~Content-Length: 0^~^~|NotFound
405 Method Not Allowed: HTTP/1.1 405 Method Not Allowed^~Allow: GET^~Content-Length: 0^~^~|MethodNotAllowed";

fn rows_of_responses(alloc: Global, row: &str) -> Result<String, AllocError> {
    match row {
        "picture" => picture(alloc),
        "BadRequest" => refused(alloc, Refusal::BadRequest),
        "NotFound" => refused(alloc, Refusal::NotFound),
        "MethodNotAllowed" => refused(alloc, Refusal::MethodNotAllowed),
        _ => String::from_str(alloc, "malformed"),
    }
}

#[test]
fn pictures_and_refusals_are_written_with_their_status(rt: HostRuntime) -> Result<(), TableFault> {
    check_rows(rt.alloc(), RESPONSES, '|', 4, rows_of_responses)
}

// The statuses and the targets of the responses to a stream, `|` and the stream. LF is written `~`.
const NAMED: &str = "\
503 /wms?a=b |GET /wms?a=b HTTP/1.1~~
404 /a?b 503 / |~GET /a?b HTTP/1.1~~GET / HTTP/1.1~~
405 /c |BREW /c HTTP/1.0~~GET / HTTP/1.1~~
404 * 404 http://x/wms?a |GET * HTTP/1.1~~GET http://x/wms?a HTTP/1.1~~
# a head that announces a body has a target
400 /wms?q |GET /wms?q HTTP/1.1~Content-Length: 1~~
# bytes that are no head have none
400  |GET /wms?q HTTP/3.0~~
400  |GET /a b HTTP/1.1~~
503 /?q 400  |GET /?q HTTP/1.1~~GET /wms?q";

// Adds the status and the target of the response that a session has to send, and sends it.
fn name(alloc: Global, text: String, session: &mut Session) -> Result<String, AllocError> {
    let (head, body) = session.outgoing();
    let count = head.len().saturating_add(body.len());
    if count == 0 {
        return Ok(text);
    }
    let target = str::from_utf8(session.target()).unwrap_or("?");
    let text = format!(in alloc; "{}{} {target} ", text.as_str(), session.status())?;
    session.sent(count);
    Ok(text)
}

fn rows_of_named(alloc: Global, row: &str) -> Result<String, AllocError> {
    let stream = row.replace(alloc, '~', "\n")?;
    let mut asks = Closed { queries: 0 };
    let mut session = Session::new(alloc)?;
    let mut text = String::new(alloc);
    for byte in stream.as_bytes().chunks(1) {
        session.feed(byte, &mut asks);
        text = name(alloc, text, &mut session)?;
    }
    if session.wants_more() {
        session.end();
    }
    name(alloc, text, &mut session)
}

#[test]
fn responses_name_the_targets_of_their_requests(rt: HostRuntime) -> Result<(), TableFault> {
    check_rows(rt.alloc(), NAMED, '|', 8, rows_of_named)
}
