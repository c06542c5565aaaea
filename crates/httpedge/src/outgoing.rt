ghost use Rattle.std.specs.Prelude.{◌≡◌, ◌≤◌, ◌+◌, ◌++◌, [], ◌∷◌, length, take, drop, true, false, ◌==◌, codes};
ghost use Rattle.httpedge.specs.Response.{head_end, refusal_lines, busy_lines, body_text, answer_text, response};
ghost use Rattle.httpedge.specs.Outgoing.{answer_head, body_of};

use crate::response::{busy_lines, head_end, mime_bytes, refusal_lines};
use crate::{Outcome, Refusal};
use answers::Answer;
use itoa::Buffer;
use mapdefs::Items;
use std::marker::Model;

// How many bytes the head of a response has, at most.
const HEAD_ROOM: usize = 256;

/// The head of a response.
#[derive(Drop)]
pub struct ResponseHead {
    room: [u8; HEAD_ROOM],
    filled: usize,
}

impl Model for ResponseHead {
    ghost use Rattle.std.specs.Prelude.{ℕ, List, ◌≤◌, take};

    ghost Value = { List ℕ };

    ghost view = { λ l. take l.filled l.room };

    ghost invariant = { λ l. l.filled ≤ 256 };
}

impl ResponseHead {
    // No bytes yet.
    fn new() -> Self
        ensures { result ≡ [] }
    {
        ResponseHead {
            room: [0; HEAD_ROOM],
            filled: 0,
        }
    }

    // Adds bytes, for which there is room.
    fn add(&mut self, piece: &[u8])
        requires room { length self.old + length piece.now ≤ 256 }
        ensures { self.new ≡ self.old ++ piece.now }
    {
        let end = self.filled + piece.len();
        self.room[self.filled..end].copy_from_slice(piece);
        self.filled = end;
    }

    // The bytes after so many.
    fn rest(&self, written: usize) -> &[u8]
        requires { written ≤ length self.now }
        ensures { result.now ≡ drop written self.now }
    {
        &self.room[written..self.filled]
    }

    // How many there are.
    fn len(&self) -> usize
        ensures { result ≡ length self.now }
    {
        self.filled
    }
}

// The head of an answer.
fn answer_head(mime: &[u8], count: &[u8], closing: bool) -> ResponseHead
    requires mime { length mime.now ≤ 64 }
    requires count { length count.now ≤ 40 }
    ensures { result ≡ answer_head mime.now count.now closing }
{
    let mut head = ResponseHead::new();
    head.add(b"HTTP/1.1 200 OK\r\nContent-Type: ");
    head.add(mime);
    head.add(b"\r\nContent-Length: ");
    head.add(count);
    head.add(b"\r\n");
    head.add(head_end(closing));
    head
}

// The head of a refusal.
fn refusal_head(refusal: Refusal, closing: bool) -> ResponseHead
    ensures { result ≡ refusal_lines refusal ++ head_end closing }
{
    let mut head = ResponseHead::new();
    head.add(refusal_lines(refusal));
    head.add(head_end(closing));
    head
}

// The head of the response that the server is busy.
fn busy_head(closing: bool) -> ResponseHead
    ensures { result ≡ busy_lines ++ head_end closing }
{
    let mut head = ResponseHead::new();
    head.add(busy_lines());
    head.add(head_end(closing));
    head
}

/// The bytes of a response that are still to be sent: the rest of its head, and the rest of its body, which
/// isn't copied.
#[derive(Drop)]
pub struct Outgoing {
    head: ResponseHead,
    head_sent: usize,
    body: Option<Items<u8>>,
    body_sent: usize,
}

impl Model for Outgoing {
    ghost use Rattle.std.specs.Prelude.{ℕ, List, ◌≤◌, ◌++◌, drop, length};
    ghost use Rattle.httpedge.specs.Outgoing.{body_of};

    ghost Value = { List ℕ };

    ghost view = { λ o. drop o.head_sent o.head ++ drop o.body_sent (body_of o.body) };

    ghost invariant = { λ o. (o.head_sent ≤ length o.head) × (o.body_sent ≤ length (body_of o.body)) };
}

// The bytes of a body, if there is one.
fn body_slice(body: &Option<Items<u8>>) -> &[u8]
    ensures { result.now ≡ body_of body.now }
{
    match body {
        Some(items) => items.as_slice(),
        None => &[],
    }
}

impl Outgoing {
    /// Nothing.
    pub fn nothing() -> Self
        ensures { result ≡ [] }
    {
        Outgoing {
            head: ResponseHead::new(),
            head_sent: 0,
            body: None,
            body_sent: 0,
        }
    }

    /// The response to an outcome. Its body is moved, not copied.
    #[tactic(auto, unfolding(crate::specs::Response::body_text))]
    pub fn of(outcome: Outcome, closing: bool) -> Self
        ensures { result ≡ response outcome closing }
    {
        match outcome {
            Outcome::Answered(Answer { mime, body }) => {
                let mut digits = Buffer::new();
                let count = digits.format(body.len() as u64).as_bytes();
                Outgoing {
                    head: answer_head(mime_bytes(mime), count, closing),
                    head_sent: 0,
                    body: Some(body),
                    body_sent: 0,
                }
            }
            Outcome::Refused(refusal) => Outgoing {
                head: refusal_head(refusal, closing),
                head_sent: 0,
                body: None,
                body_sent: 0,
            },
            Outcome::Busy => Outgoing {
                head: busy_head(closing),
                head_sent: 0,
                body: None,
                body_sent: 0,
            },
        }
    }

    /// The bytes left, in two parts.
    pub fn parts(&self) -> (&[u8], &[u8])
        ensures { result.0.now ++ result.1.now ≡ self.now }
    {
        (
            self.head.rest(self.head_sent),
            &body_slice(&self.body)[self.body_sent..],
        )
    }

    /// Whether nothing is left.
    pub fn is_empty(&self) -> bool
        ensures { result ≡ (length self.now == 0) }
    {
        self.head_sent == self.head.len() && self.body_sent == body_slice(&self.body).len()
    }

    /// Notes that the first so many bytes were sent. The memory of the body is freed with its last byte.
    pub fn sent(&mut self, count: usize)
        requires { count ≤ length self.old }
        ensures { self.new ≡ drop count self.old }
    {
        let whole = body_slice(&self.body).len();
        let of_lines = count.min(self.head.len() - self.head_sent);
        self.head_sent += of_lines;
        self.body_sent += count - of_lines;
        if self.body_sent == whole {
            self.body = None;
            self.body_sent = 0;
        }
    }
}
