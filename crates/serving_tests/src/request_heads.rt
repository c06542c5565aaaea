ghost use Rattle.std.specs.Prelude.{◌≤◌, length};

use httpedge::{Conn, Decision, Refusal};
use std::alloc::{AllocError, Global};
use test_tables::{TableFault, check_rows};

// A status and a query in the form of a row: an empty query is `-`.
fn query_text(alloc: Global, query: &[u8]) -> Result<String, AllocError> {
    match str::from_utf8(query) {
        Ok("") => String::from_str(alloc, "200 -"),
        Ok(text) => format!(in alloc; "200 {text}"),
        Err(_) => String::from_str(alloc, "200 and bytes that are no text"),
    }
}

// The decision, in the form of a row, and whether it ends the connection, which a bad request does.
fn decided(
    alloc: Global,
    decision: Decision,
    query: &[u8],
    closing: bool,
) -> Result<String, AllocError> {
    let text = match decision {
        Decision::Ask => query_text(alloc, query),
        Decision::Refused(refusal) => format!(in alloc; "{}", refusal.status().as_str()),
    }?;
    match (decision, closing) {
        (Decision::Refused(Refusal::BadRequest), false) => format!(in alloc; "{text} and stays"),
        (Decision::Refused(Refusal::BadRequest), true) | (_, false) => Ok(text),
        (_, true) => format!(in alloc; "{text} and closes"),
    }
}

// The first request of a stream that comes in these pieces, up to its end, in the form of a row.
fn meaning(alloc: Global, pieces: &[&[u8]]) -> Result<String, AllocError> {
    let mut conn = Conn::new(alloc)?;
    for piece in pieces {
        if let Some(decision) = conn.feed(piece).step {
            return decided(alloc, decision, conn.query(), conn.closing());
        }
    }
    match conn.end() {
        None => Ok(String::new(alloc)),
        Some(decision) => decided(alloc, decision, conn.query(), conn.closing()),
    }
}

// What a stream means that comes a byte at a time.
fn meaning_by_bytes(alloc: Global, stream: &[u8]) -> Result<String, AllocError> {
    let mut pieces = Vec::new(alloc);
    for piece in stream.chunks(1) {
        pieces.push(piece)?;
    }
    meaning(alloc, &pieces)
}

// What a stream means that comes in two pieces.
fn meaning_of_two(alloc: Global, stream: &[u8], cut: usize) -> Result<String, AllocError>
    requires { cut ≤ length stream.now }
{
    let (first, second) = stream.split_at(cut);
    meaning(alloc, &[first, second])
}

// The bytes of a row: a space is written `_`, CR `^` and LF `~`, both `|`, and 16 fields of four bytes `#`.
fn stream_of(alloc: Global, text: &str) -> Result<Vec<u8>, AllocError> {
    let text = text.replace(
        alloc,
        '#',
        "x:|x:|x:|x:|x:|x:|x:|x:|x:|x:|x:|x:|x:|x:|x:|x:|",
    )?;
    let text = text.replace(alloc, '|', "^~")?;
    let text = text.replace(alloc, '_', " ")?;
    let text = text.replace(alloc, '^', "\r")?;
    let text = text.replace(alloc, '~', "\n")?;
    Ok(text.into_bytes())
}

// Statuses, with the query, `>` and their streams.
const STREAMS: &str = "\
200 ->GET_/wms_HTTP/1.1|Host:_x||
200 a=b>GET_/wms?a=b_HTTP/1.1|Host:_x||
200 a=b>GET_/?a=b_HTTP/1.1||
200 ->GET_/_HTTP/1.1||
200 ->GET_/wms?_HTTP/1.1||
200 a?b=c>GET_/wms?a?b=c_HTTP/1.1||
200 ?b>GET_/wms??b_HTTP/1.1||
200 a=b and closes>GET_/wms?a=b_HTTP/1.0||
200 a=b>GET_/wms?a=b_HTTP/1.1~Host:_x~~
200 a=b>GET_/wms?a=b_HTTP/1.1|Host:_x~|
200 a=b>|~|GET_/wms?a=b_HTTP/1.1||
200 a=b>GET_/wms?a=b_HTTP/1.1||GET_/?c=d_HTTP/1.1||
# a head that announces a body
400>GET_/wms?a=b_HTTP/1.1|Content-Length:_3||c=d
400>POST_/x_HTTP/1.0|TRANSFER-encoding:_chunked||
400>GET_/wms?a=b_HTTP/1.1|Content-Length:_0|Content-Length:_1||
400>GET_/wms?a=b_HTTP/1.1|Content-Length:_00||
200 a=b>GET_/wms?a=b_HTTP/1.1|content-LENGTH:_0_|Content-Length:0||
# one that ends the connection
200 a=b and closes>GET_/wms?a=b_HTTP/1.1|Connection:_close||
200 a=b and closes>GET_/wms?a=b_HTTP/1.1|Connection:_keep-alive|CONNECTION:_a,_CLOSE_,b||
405 and closes>POST_/wms?a=b_HTTP/1.1|Connection:_close||
404 and closes>GET_/x_HTTP/1.0|Connection:_keep-alive||
200 a=b>GET_/wms?a=b_HTTP/1.1|Connection:_closed,_not-close||
200 a=b>GET_/wms?a=b_HTTP/1.1|X-Connection:_close||
200 a=b>GET_/wms?a=b_HTTP/1.1|Host:||
405>POST_/wms?a=b_HTTP/1.1||
405>HEAD_/wms?a=b_HTTP/1.1||
405>get_/wms?a=b_HTTP/1.1||
405>GETS_/wms?a=b_HTTP/1.1||
405>POST_/x_HTTP/1.1||
404>GET_/x_HTTP/1.1||
404>GET_/x?a=b_HTTP/1.1||
404>GET_/wms/?a=b_HTTP/1.1||
404>GET_/WMS?a=b_HTTP/1.1||
404>GET_//?a=b_HTTP/1.1||
404>GET_?a=b_HTTP/1.1||
404>GET_*_HTTP/1.1||
404>GET_http://x/wms?a=b_HTTP/1.1||
400>GET_/wms?a=b_HTTP/2.0||
400>GET_/wms?a=b_HTTP/1.2||
400>GET_/wms?a=b_http/1.1||
400>GET_/wms?a=b||
400>GET__/wms_HTTP/1.1||
400>GET_/wms?a=b_c_HTTP/1.1||
400>_GET_/wms_HTTP/1.1||
400>GET_/wms_HTTP/1.1|Host:_x|_y||
400>GET_/wms_HTTP/1.1|Host_:_x||
400>GET_/wms_HTTP/1.1|_Host:_x||
400>GET_/wms_HTTP/1.1|Host||
400>GET_/wms_HTTP/1.1^Host:_x^^
400>GET_/wms_HTTP/1.1|Host:_x|^
400>GET_/wms_HTTP/1.1|Host:_x|
400>GET_/wms
400>|
400>x
# no bytes
>
# 64 fields, and one more
200 a=b>GET_/wms?a=b_HTTP/1.1|####|
400>GET_/wms?a=b_HTTP/1.1|####x:||";

// The meaning of a stream that comes a byte at a time, and its meaning where it is cut in two, if that is another.
fn rows_of_streams(alloc: Global, row: &str) -> Result<String, AllocError> {
    let stream = stream_of(alloc, row)?;
    let meaning = meaning_by_bytes(alloc, &stream)?;
    for cut in 0..=stream.len() {
        let other = meaning_of_two(alloc, &stream, cut)?;
        if other.as_str() != meaning.as_str() {
            return format!(in alloc; "{meaning}, but {other} when cut at {cut}");
        }
    }
    Ok(meaning)
}

#[test]
fn streams_mean_what_their_heads_say(rt: HostRuntime) -> Result<(), TableFault> {
    check_rows(rt.alloc(), STREAMS, '>', 57, rows_of_streams)
}

// How many bytes, the first of their meaning in two pieces and a byte at a time. After the `>`: the text before so many
// bytes `a`, their number, the text after them, and how long the first piece is.
const LENGTHS: &str = "\
# heads, which have 22 bytes without their query
16384 200 a 200 a>GET_/wms? 16362 _HTTP/1.1|| 8192
16385 400 400>GET_/wms? 16363 _HTTP/1.1|| 8192
# bytes without a head
16385 400 400>a 16383 a 1";

// The first five bytes of a text, of which there may be fewer.
fn prefix(meaning: &str) -> &str {
    meaning.get(..5).unwrap_or(meaning)
}

fn number(text: &str) -> usize {
    text.parse::<usize>().unwrap_or(0)
}

// The text before the bytes of a row, their number, the text after them, and where the stream is cut.
fn parts(row: &str) -> Option<(&str, usize, &str, usize)> {
    let (before, rest) = row.split_once(' ')?;
    let (count, rest) = rest.split_once(' ')?;
    let (after, cut) = rest.split_once(' ')?;
    Some((before, number(count), after, number(cut)))
}

// The meanings of a stream in two pieces and a byte at a time.
fn result_of_long(alloc: Global, stream: &[u8], cut: usize) -> Result<String, AllocError> {
    let len = stream.len();
    let whole = meaning_of_two(alloc, stream, cut.min(len))?;
    let bytes = meaning_by_bytes(alloc, stream)?;
    format!(in alloc;
        "{len} {} {}",
        prefix(whole.as_str()),
        prefix(bytes.as_str())
    )
}

fn rows_of_lengths(alloc: Global, row: &str) -> Result<String, AllocError> {
    let Some((before, count, after, cut)) = parts(row) else {
        return String::from_str(alloc, "malformed");
    };
    let middle = "a".repeat(alloc, count.min(20_000))?;
    let text = format!(in alloc; "{before}{middle}{after}")?;
    let stream = stream_of(alloc, text.as_str())?;
    result_of_long(alloc, &stream, cut)
}

#[test]
fn at_most_16384_bytes_are_a_head(rt: HostRuntime) -> Result<(), TableFault> {
    check_rows(rt.alloc(), LENGTHS, '>', 3, rows_of_lengths)
}

// The results of a piece, a head after it, the end and a head after that, `>` and the piece.
const DECISIONS: &str = "\
19 Some(Refused(MethodNotAllowed)) 0 Some(Refused(MethodNotAllowed)) Some(Refused(MethodNotAllowed)) 0 Some(Refused(MethodNotAllowed))>POST_/_HTTP/1.1||
19 Some(Refused(NotFound)) 0 Some(Refused(NotFound)) Some(Refused(NotFound)) 0 Some(Refused(NotFound))>GET_/x_HTTP/1.1||
# what can't become a head is refused at once
3 Some(Refused(BadRequest)) 0 Some(Refused(BadRequest)) Some(Refused(BadRequest)) 0 Some(Refused(BadRequest))>\x16\x03\x01
# a query is asked, and no byte after its head is taken
22 Some(Ask) 0 Some(Ask) Some(Ask) 0 Some(Ask)>GET_/?a=b_HTTP/1.1||
22 Some(Ask) 0 Some(Ask) Some(Ask) 0 Some(Ask)>GET_/?a=b_HTTP/1.1||GET_/x
# no piece is no end
0 None 25 Some(Ask) Some(Ask) 0 Some(Ask)>";

fn rows_of_decisions(alloc: Global, row: &str) -> Result<String, AllocError> {
    let piece = stream_of(alloc, row)?;
    let mut conn = Conn::new(alloc)?;
    let first = conn.feed(&piece);
    let second = conn.feed(b"GET /wms?c=d HTTP/1.1\r\n\r\n");
    let end = conn.end();
    let third = conn.feed(b"GET / HTTP/1.1\r\n\r\n");
    format!(in alloc;
        "{} {:?} {} {:?} {end:?} {} {:?}",
        first.taken, first.step, second.taken, second.step, third.taken, third.step
    )
}

#[test]
fn decisions_stay(rt: HostRuntime) -> Result<(), TableFault> {
    check_rows(rt.alloc(), DECISIONS, '>', 6, rows_of_decisions)
}

// The result of a piece after a first head, `>` and the piece.
const BEHIND: &str = "\
# bytes of another protocol are refused at once, however long the first head was
3 Some(Refused(BadRequest))>\x16\x03\x01
1 Some(Refused(BadRequest))>\x7f
13 Some(Refused(BadRequest))>SSH-2.0-x||
# what may become a head isn't
17 None>GET_/y_HTTP/1.1|";

fn rows_behind(alloc: Global, row: &str) -> Result<String, AllocError> {
    let piece = stream_of(alloc, row)?;
    let mut conn = Conn::new(alloc)?;
    let _ = conn.feed(b"GET /a-long-first-head HTTP/1.1\r\nHost: map.example\r\n\r\n");
    let is_next = conn.next();
    let fed = conn.feed(&piece);
    format!(in alloc; "{} {:?}", if is_next { fed.taken } else { 0 }, fed.step)
}

#[test]
fn what_is_no_head_is_refused_behind_another(rt: HostRuntime) -> Result<(), TableFault> {
    check_rows(rt.alloc(), BEHIND, '>', 4, rows_behind)
}

// The result of the end after a piece, that of a head after it, whether the head is forgotten, and the result of a head
// then, `>` and the piece.
const ENDS: &str = "\
None Some(Ask) true Some(Refused(NotFound))>
Some(Refused(BadRequest)) Some(Refused(BadRequest)) false Some(Refused(BadRequest))>G";

fn rows_of_ends(alloc: Global, row: &str) -> Result<String, AllocError> {
    let mut conn = Conn::new(alloc)?;
    let _ = conn.feed(row.as_bytes());
    let end = conn.end();
    let step = conn.feed(b"GET / HTTP/1.1\r\n\r\n").step;
    let is_next = conn.next();
    let further = conn.feed(b"GET /x HTTP/1.1\r\n\r\n").step;
    format!(in alloc; "{end:?} {step:?} {is_next} {further:?}")
}

#[test]
fn ends_refuse_what_came(rt: HostRuntime) -> Result<(), TableFault> {
    check_rows(rt.alloc(), ENDS, '>', 2, rows_of_ends)
}
