ghost use Rattle.std.specs.Prelude.{◌≡◌, [], IfOk};
ghost use Rattle.httpedge.specs.Session.{new_session};
ghost use Rattle.turns.specs.Room.{is_small, size_by};

use crate::{AnswerSize, ReadBuffer, SMALL_ANSWER_BYTES};
use httpedge::{Session, reckoned_bytes};
use std::alloc::{AllocError, Global};

/// A session, and the bytes of its client that were read and aren't taken yet.
#[derive(Drop)]
pub struct BufferedSession {
    /// The session, which answers the bytes.
    pub session: Session,
    /// The bytes that were read and aren't taken yet.
    pub buffer: ReadBuffer,
}

impl BufferedSession {
    /// One to which nothing came.
    pub fn new(alloc: Global) -> Result<Self, AllocError>
        ensures session { IfOk result (λ exchange. exchange.session ≡ new_session) }
        ensures buffer { IfOk result (λ exchange. exchange.buffer ≡ []) }
    {
        Ok(BufferedSession {
            session: Session::new(alloc)?,
            buffer: ReadBuffer::new(alloc)?,
        })
    }

    // Whether the bytes that came and aren't taken begin a head whose answer is reckoned as small.
    #[tactic(auto, unfolding(crate::specs::Room::is_small))]
    fn is_small(&self) -> bool
        ensures { result ≡ is_small self.now }
    {
        !self.session.has_begun()
            && !self.buffer.is_empty()
            && reckoned_bytes(self.buffer.bytes()) <= SMALL_ANSWER_BYTES
    }

    /// What its next answer is reckoned as.
    pub fn next_size(&self) -> AnswerSize
        ensures { result ≡ size_by (is_small self.now) }
    {
        if self.is_small() {
            AnswerSize::Small
        } else {
            AnswerSize::Large
        }
    }
}
