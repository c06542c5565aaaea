//! What the bytes that came decide.

ghost use Rattle.std.specs.Prelude.{◌≡◌, ◌<◌, ◌≤◌, ◌+◌, ℕ, Bool, length, take, drop, map, All, ◌==◌, ◌||◌, false, true};
ghost use Rattle.httpedge.specs.Fields.{says_close};
ghost use Rattle.std.specs.List.{list_any, before_first, after_first, position_or_len};
ghost use Rattle.httparse.specs.Spans.{span_bytes, header_bytes, IsWithin, IsHeaderWithin, IsRequestWithin, IsRequestOf};
ghost use Rattle.httpedge.specs.Head.{HasNoHead};
ghost use Rattle.httpedge.specs.Meaning.{Refused, is_question_mark, is_served, target_meaning, request_meaning, decision_meaning};
ghost use Rattle.httpedge.specs.Turn.{AlwaysTurns};
ghost use Rattle.httpedge.specs.Verdict.{IsJudged};
ghost use Rattle.httpedge.specs.declared.refusal.Refusal.TheVariants.{BadRequest};
ghost use Rattle.httpedge.specs.declared.verdict.TheConstants.{HEAD_BYTES, HEAD_FIELDS};

use crate::fields::{has_body, has_closing};
use crate::{Decision, Refusal};
use httparse::Status;
use httparse::spans::{EMPTY_HEADER_SPAN, HeaderSpan, RequestSpans, Span, parse_request};

/// The most bytes of a head.
pub const HEAD_BYTES: usize = 16_384;

/// The most fields of a head.
pub const HEAD_FIELDS: usize = 64;

/// A verdict on the first bytes of a stream.
#[derive(Clone, Copy)]
pub struct Judged {
    /// The decision, if there is one.
    pub decision: Option<Decision>,
    /// The position of the target of their head.
    pub target: Span,
    /// Whether the decision ends the connection.
    pub closes: bool,
    /// How many bytes were judged: a whole head, or all.
    pub len: usize,
}

/// The empty range.
pub const NOWHERE: Span = Span { start: 0, end: 0 };

// How many bytes are before the first question mark.
fn path_len(target: &[u8]) -> usize
    ensures value { result ≡ position_or_len is_question_mark target.now }
    ensures bound { result ≤ length target.now }
{
    target.iter().take_while(|byte| **byte != b'?').count()
}

// Whether a path is served.
fn is_served(path: &[u8]) -> bool
    ensures { result ≡ is_served path.now }
{
    path == b"/".as_slice() || path == b"/wms".as_slice()
}

/// The query of a target: after its first question mark.
pub fn query_of(target: &[u8]) -> &[u8]
    ensures { result.now ≡ after_first is_question_mark target.now }
{
    let (_, query) = target.split_at((path_len(target) + 1).min(target.len()));
    query
}

// What a target decides.
fn decide_target(target: &[u8]) -> Decision
    ensures { decision_meaning result target.now ≡ target_meaning target.now }
{
    let (path, _) = target.split_at(path_len(target));
    if is_served(path) {
        Decision::Ask
    } else {
        Decision::Refused(Refusal::NotFound)
    }
}

// What a method and a target decide.
fn decide(method: &[u8], target: &[u8]) -> Decision
    ensures { decision_meaning result target.now ≡ request_meaning method.now target.now }
{
    if method == b"GET".as_slice() {
        decide_target(target)
    } else {
        Decision::Refused(Refusal::MethodNotAllowed)
    }
}

// Whether a head ends the connection, by its version or by a field.
fn ends(bytes: &[u8], fields: &[HeaderSpan], version: u8) -> bool
    requires within { All (IsHeaderWithin (length bytes.now)) fields.now }
    ensures { result ≡ (version == 0 || list_any says_close (map (header_bytes bytes.now) fields.now)) }
{
    version == 0 || has_closing(bytes, fields)
}

// The verdict on a head that the parser found.
fn judge_head(bytes: &[u8], fields: &[HeaderSpan], head: RequestSpans) -> Judged
    requires limit { length bytes.now ≤ HEAD_BYTES }
    requires room { length fields.now ≤ HEAD_FIELDS }
    requires within { IsRequestWithin bytes.now fields.now head }
    requires complete { IsRequestOf bytes.now fields.now head }
    ensures { IsJudged bytes.now result }
{
    let (fields, _) = fields.split_at(head.headers);
    if has_body(bytes, fields) {
        return Judged {
            decision: Some(Decision::Refused(Refusal::BadRequest)),
            target: head.path,
            closes: true,
            len: head.len,
        };
    }
    Judged {
        decision: Some(decide(head.method.of(bytes), head.path.of(bytes))),
        target: head.path,
        closes: ends(bytes, fields, head.version),
        len: head.len,
    }
}

// The verdict on bytes without a head that get none, whatever follows.
fn judge_hopeless(bytes: &[u8]) -> Judged
    requires headless { HasNoHead bytes.now }
    requires always { (is_last : Bool) → AlwaysTurns is_last bytes.now true (Refused BadRequest) }
    ensures { IsJudged bytes.now result }
{
    Judged {
        decision: Some(Decision::Refused(Refusal::BadRequest)),
        target: NOWHERE,
        closes: true,
        len: bytes.len(),
    }
}

// The verdict on bytes without a head.
fn judge_headless(bytes: &[u8]) -> Judged
    requires limit { length bytes.now ≤ HEAD_BYTES }
    requires headless { HasNoHead bytes.now }
    ensures { IsJudged bytes.now result }
{
    if bytes.len() == HEAD_BYTES {
        return judge_hopeless(bytes);
    }
    Judged {
        decision: None,
        target: NOWHERE,
        closes: false,
        len: bytes.len(),
    }
}

// The verdict on bytes that are parsed.
fn judge_parsed(bytes: &[u8]) -> Judged
    requires some { 0 < length bytes.now }
    requires limit { length bytes.now ≤ HEAD_BYTES }
    ensures { IsJudged bytes.now result }
{
    let mut fields = [EMPTY_HEADER_SPAN; HEAD_FIELDS];
    match parse_request(bytes, &mut fields) {
        Ok(Status::Complete(head)) => judge_head(bytes, &fields, head),
        Ok(Status::Partial) => judge_headless(bytes),
        Err(_) => judge_hopeless(bytes),
    }
}

/// The decision of the bytes that came so far. Where `is_due` is false, the caller shows that they
/// have no head.
pub fn judge(bytes: &[u8], is_due: bool) -> Judged
    requires some { 0 < length bytes.now }
    requires limit { length bytes.now ≤ HEAD_BYTES }
    requires due { is_due ≡ false → HasNoHead bytes.now }
    ensures { IsJudged bytes.now result }
{
    if is_due {
        judge_parsed(bytes)
    } else {
        judge_headless(bytes)
    }
}
