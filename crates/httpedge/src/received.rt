ghost use Rattle.std.specs.Prelude.{◌≡◌, ◌<◌, ◌≤◌, ◌+◌, ◌*◌, ◌++◌, length, vec_capacity, IfOk, None, [], true, false};
ghost use Rattle.std.specs.List.{list_any, list_all};
ghost use Rattle.httpedge.specs.Received.{is_line_feed, is_newline, IsReceived};
ghost use Rattle.httpedge.specs.Connection.{Open, progress, Takes, Feeds, Ends};
ghost use Rattle.httpedge.specs.Head.{HasNoHead};
ghost use Rattle.httpedge.specs.declared.verdict.TheConstants.{HEAD_BYTES};

use crate::verdict::{HEAD_BYTES, NOWHERE, judge};
use crate::{Decision, Refusal};
use httparse::spans::Span;
use std::alloc::{AllocError, Global};

/// The bytes that came, up to the limit of a head, and what they decide.
#[derive(Drop)]
pub struct Received {
    /// The bytes, for which there is room up to the limit.
    pub bytes: Vec<u8>,
    /// What they decide, if they do.
    pub decision: Option<Decision>,
    /// The position of the target of their head.
    pub target: Span,
    /// Whether their head ends the connection.
    pub closes: bool,
    /// Whether one of the bytes is neither CR nor LF.
    pub has_text: bool,
    /// How many of the bytes there were when they were last parsed.
    pub parsed: usize,
}

// Whether a line ends in the bytes.
fn ends_line(bytes: &[u8]) -> bool
    ensures { result ≡ list_any is_line_feed bytes.now }
{
    bytes.iter().any(|byte| *byte == b'\n')
}

// Whether the bytes have nothing but the ends of lines.
fn is_blank(bytes: &[u8]) -> bool
    ensures { result ≡ list_all is_newline bytes.now }
{
    bytes.iter().all(|byte| *byte == b'\r' || *byte == b'\n')
}

// Adds bytes, for which there is room.
fn add(bytes: &mut Vec<u8>, more: &[u8])
    requires room { length bytes.old.items + length more.now ≤ vec_capacity bytes.old }
    ensures items { bytes.new.items ≡ bytes.old.items ++ more.now }
    ensures capacity { vec_capacity bytes.old ≤ vec_capacity bytes.new }
{
    let _ = bytes.extend_from_slice(more);
}

// How many bytes were parsed last, where all that came are parsed or not.
fn last_parsed(is_due: bool, count: usize, before: usize) -> usize
    requires before { before ≤ count }
    requires recent { is_due ≡ false → count ≤ 2 * before }
    ensures these { result ≤ count }
    ensures recent { count ≤ 2 * result }
{
    if is_due { count } else { before }
}

impl Received {
    /// No bytes, with room for a head.
    pub fn new(alloc: Global) -> Result<Self, AllocError>
        ensures received { IfOk result IsReceived }
        ensures nothing { IfOk result (λ received. progress received ≡ Open []) }
    {
        Ok(Received {
            bytes: Vec::with_capacity(alloc, HEAD_BYTES)?,
            decision: None,
            target: NOWHERE,
            closes: false,
            has_text: false,
            parsed: 0,
        })
    }

    // Whether a head may end in a further piece: a line ends in it, and not all lines are empty.
    fn may_end_head(&self, piece: &[u8]) -> bool
        requires received { IsReceived self.now }
        requires open { self.now.decision ≡ None }
        ensures { result ≡ false → HasNoHead (self.now.bytes.items ++ piece.now) }
    {
        if !ends_line(piece) {
            return false;
        }
        self.has_text || !is_blank(piece)
    }

    // Whether the bytes with a further piece are to be parsed. They are where a head may end in the piece, and where
    // they have doubled since they were last parsed, so that bytes without a line are refused too.
    fn is_due(&self, piece: &[u8]) -> bool
        requires received { IsReceived self.now }
        requires open { self.now.decision ≡ None }
        requires limit { length piece.now ≤ HEAD_BYTES }
        ensures headless { result ≡ false → HasNoHead (self.now.bytes.items ++ piece.now) }
        ensures recent { result ≡ false → length self.now.bytes.items + length piece.now ≤ 2 * self.now.parsed }
    {
        self.may_end_head(piece) || (self.bytes.len() + piece.len()) / 2 >= self.parsed
    }

    // Whether the bytes with a further piece have text.
    fn has_text_with(&self, piece: &[u8]) -> bool
        requires received { IsReceived self.now }
        requires open { self.now.decision ≡ None }
        ensures { result ≡ false → list_all is_newline (self.now.bytes.items ++ piece.now) ≡ true }
    {
        self.has_text || !is_blank(piece)
    }

    // Takes from a further piece the bytes that may belong to the head, and judges the bytes. Where a head ends in
    // the piece, only its bytes are kept.
    fn take_in(&mut self, piece: &[u8]) -> usize
        requires received { IsReceived self.old }
        requires open { self.old.decision ≡ None }
        requires some { 0 < length piece.now }
        ensures received { IsReceived self.new }
        ensures takes { Takes self.old.bytes.items piece.now result (progress self.new) }
    {
        let before = self.bytes.len();
        let (prefix, _) = piece.split_at(piece.len().min(HEAD_BYTES - before));
        let is_due = self.is_due(prefix);
        self.has_text = self.has_text_with(prefix);
        add(&mut self.bytes, prefix);
        self.parsed = last_parsed(is_due, self.bytes.len(), self.parsed);
        let judged = judge(&self.bytes, is_due);
        self.bytes.truncate(judged.len);
        self.decision = judged.decision;
        self.target = judged.target;
        self.closes = judged.closes;
        judged.len - before
    }

    /// Takes bytes of a piece, and returns how many. A decision that was there stays.
    pub fn feed(&mut self, piece: &[u8]) -> usize
        requires received { IsReceived self.old }
        ensures received { IsReceived self.new }
        ensures feeds { Feeds (progress self.old) piece.now result (progress self.new) }
    {
        match self.decision {
            None if !piece.is_empty() => self.take_in(piece),
            _ => 0,
        }
    }

    /// Takes the end of the stream. A decision that was there stays.
    pub fn end(&mut self)
        requires received { IsReceived self.old }
        ensures received { IsReceived self.new }
        ensures ends { Ends (progress self.old) (progress self.new) }
    {
        match self.decision {
            None if !self.bytes.is_empty() => {
                self.decision = Some(Decision::Refused(Refusal::BadRequest));
                self.target = NOWHERE;
                self.closes = true;
            }
            _ => {}
        }
    }

    /// Forgets the head, and its decision. The capacity stays.
    pub fn forget(&mut self)
        requires received { IsReceived self.old }
        ensures received { IsReceived self.new }
        ensures nothing { progress self.new ≡ Open [] }
    {
        self.bytes.truncate(0);
        self.decision = None;
        self.target = NOWHERE;
        self.closes = false;
        self.has_text = false;
        self.parsed = 0;
    }
}
