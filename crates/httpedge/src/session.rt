ghost use Rattle.std.specs.Prelude.{◌≡◌, ◌≤◌, ◌++◌, [], ℕ, List, Bool, Some, true, false, ◌==◌, length, take, drop, IfOk, OnOk};
ghost use Rattle.httpedge.specs.Connection.{has_begun, step_of, target_of, is_closing};
ghost use Rattle.httpedge.specs.Exchange.{Said, IsReply, IsExchange};
ghost use Rattle.httpedge.specs.Head.{IsTargetOf};
ghost use Rattle.httpedge.specs.Meaning.{decision_meaning};
ghost use Rattle.httpedge.specs.Feeding.{RespondsOn};
ghost use Rattle.httpedge.specs.Session.{new_session, stage_after, wants, is_done, HasNamed, HasResponded, HasRespondedWith, QueryOutcome, HasAsked, says_as_listed};
ghost use Rattle.httpedge.specs.Response.{HasStatus};
ghost use Rattle.httpedge.specs.Serving.{IsReading, requests_left, came_of};
ghost use Rattle.httpedge.specs.declared.stage.Stage.TheVariants.{Ended};

use crate::edge::outcome;
use crate::outgoing::Outgoing;
use crate::stage::Stage;
use crate::{Asks, Conn, Decision, Outcome, Refusal};
use std::alloc::{AllocError, Global};
use std::marker::Model;

/// The response to a decision, and its status.
pub(crate) fn reply<A: Asks>(conn: &Conn, decision: Decision, asks: &mut A) -> (Outgoing, u16)
    requires decided { step_of conn.now.progress ≡ Some decision }
    ensures replies { IsReply A.answers (is_closing conn.now) (decision_meaning decision (target_of conn.now.progress))
        asks.old result.0 asks.new }
    ensures status { HasStatus result.0 result.1 }
{
    let outcome = outcome(conn, decision, asks);
    let status = outcome.status();
    (Outgoing::of(outcome, conn.closing()), status)
}

// The response at the end of a stream: bytes without a head are refused.
fn end_reply(conn: &mut Conn) -> Outgoing
    requires reading { IsReading conn.old }
    ensures answers { (later : List QueryOutcome)
        → IsExchange says_as_listed (requests_left conn.old) (came_of conn.old.progress) later result later }
    ensures status { (length result == 0) ≡ false → HasStatus result 400 }
    ensures target { IsTargetOf (came_of conn.old.progress) (target_of conn.new.progress) }
{
    match conn.end() {
        None => Outgoing::nothing(),
        Some(_) => Outgoing::of(Outcome::Refused(Refusal::BadRequest), true),
    }
}

// Whether heads are read after one that ends the connection or doesn't.
fn stage_after(closing: bool) -> Stage
    ensures { result ≡ stage_after closing }
{
    if closing {
        Stage::Closed
    } else {
        Stage::Reading
    }
}

/// A connection without its stream: the caller feeds bytes of a client into it, and sends the bytes that answer them, at any
/// times and in any pieces. It keeps one response at most, and takes no byte while that is to be sent.
///
/// What it has sent answers what it was fed (`said`, `laws::session_answers`), also where the answerer answers queries of other
/// sessions in between. Where it alone uses the answerer, `responded` says the same of the answerer.
#[derive(Drop)]
pub struct Session {
    conn: Conn,
    outgoing: Outgoing,
    stage: Stage,
    status: u16,
}

// The head that is answered stays with the connection until the next bytes come, for its target.
impl Model for Session {
    ghost use Rattle.httpedge.specs.Connection.{settled, target_of};
    ghost use Rattle.httpedge.specs.Session.{SessionState, ReadsOn};

    ghost Value = { SessionState };

    ghost view = { λ s. record {
      course = settled s.conn;
      outgoing = s.outgoing;
      stage = s.stage;
      target = target_of s.conn.progress;
      status = s.status;
    } };

    ghost invariant = { λ s. ReadsOn s.stage (settled s.conn) };
}

impl Session {
    /// A session that was fed nothing. It takes the memory for a head, and no more later.
    pub fn new(alloc: Global) -> Result<Self, AllocError>
        ensures { IfOk result (λ session. session ≡ new_session) }
    {
        Ok(Session {
            conn: Conn::new(alloc)?,
            outgoing: Outgoing::nothing(),
            stage: Stage::Reading,
            status: 0,
        })
    }

    /// Whether it takes further bytes: nothing is to be sent, and heads are read.
    pub fn wants_more(&self) -> bool
        ensures { result ≡ wants self.now }
    {
        matches!(self.stage, Stage::Reading) && self.outgoing.is_empty()
    }

    /// Whether it has ended, and nothing is to be sent.
    pub fn is_done(&self) -> bool
        ensures { result ≡ is_done self.now }
    {
        !matches!(self.stage, Stage::Reading) && self.outgoing.is_empty()
    }

    /// Whether bytes of a head were taken that isn't whole yet.
    pub fn has_begun(&self) -> bool
        ensures { result ≡ has_begun self.now.course.progress }
    {
        self.conn.has_begun()
    }

    /// Takes bytes of a piece where it takes further ones, and returns how many: all, or those up to the end of a head, which is
    /// answered. Where a response is to be sent it takes none, and doesn't call the answerer.
    pub fn feed<A: Asks>(&mut self, piece: &[u8], asks: &mut A) -> usize
        ensures count { result ≤ length piece.now }
        ensures all { wants self.new ≡ true → wants self.old ≡ true → result ≡ length piece.now }
        ensures none { wants self.old ≡ false → (result ≡ 0) × (self.new ≡ self.old) × (asks.new ≡ asks.old) }
        ensures quiet { wants self.new ≡ true → asks.new ≡ asks.old }
        ensures named { wants self.old ≡ true → HasNamed (came_of self.old.course.progress ++ take result piece.now) self.new }
        ensures goes_on { self.new.stage ≡ Ended → self.old.stage ≡ Ended }
        ensures responded { (read written : List ℕ) (first : A) → HasResponded A.answers read first written self.old asks.old
            → HasResponded A.answers (read ++ take result piece.now) first written self.new asks.new }
        ensures said { (queries : List QueryOutcome) × HasAsked A.answers asks.old queries asks.new
            × RespondsOn (take result piece.now) queries self.old self.new }
    {
        if !self.wants_more() {
            return 0;
        }
        self.conn.next();
        let fed = self.conn.feed(piece);
        if let Some(decision) = fed.step {
            let (outgoing, status) = reply(&self.conn, decision, asks);
            self.outgoing = outgoing;
            self.status = status;
            self.stage = stage_after(self.conn.closing());
        }
        fed.taken
    }

    /// Takes the end of the stream, where it takes further bytes: bytes without a head are refused.
    pub fn end(&mut self)
        requires wanted { wants self.old ≡ true }
        ensures ended { self.new.stage ≡ Ended }
        ensures named { HasNamed (came_of self.old.course.progress) self.new }
        ensures said { (read written : List ℕ) (queries : List QueryOutcome) → HasRespondedWith read queries written self.old
            → HasRespondedWith read queries written self.new }
    {
        self.conn.next();
        self.outgoing = end_reply(&mut self.conn);
        self.status = Refusal::BadRequest.status().as_u16();
        self.stage = Stage::Ended;
    }

    /// The bytes that are to be sent, in two parts: the rest of a response's head, and the rest of its body. Nothing is copied.
    pub fn outgoing(&self) -> (&[u8], &[u8])
        ensures { result.0.now ++ result.1.now ≡ self.now.outgoing }
    {
        self.outgoing.parts()
    }

    /// The target of the request that was answered last, as it was sent. It is empty where no head came.
    pub fn target(&self) -> &[u8]
        ensures { result.now ≡ self.now.target }
    {
        self.conn.target()
    }

    /// The status of the response to that request.
    pub fn status(&self) -> u16
        ensures { result ≡ self.now.status }
    {
        self.status
    }

    /// Notes that the first so many of the bytes that are to be sent were sent. The memory of a body is freed with its last
    /// byte.
    pub fn sent(&mut self, count: usize)
        requires { count ≤ length self.old.outgoing }
        ensures rest { self.new ≡ record self.old { outgoing = drop count self.old.outgoing } }
        ensures said { (read written : List ℕ) (queries : List QueryOutcome) → HasRespondedWith read queries written self.old
            → HasRespondedWith read queries (written ++ take count self.old.outgoing) self.new }
    {
        self.outgoing.sent(count);
    }
}
