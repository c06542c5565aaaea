ghost use Rattle.std.specs.Prelude.{◌++◌, []};
ghost use Rattle.std.specs.Io.KnownBytes.{Appends};
ghost use Rattle.turns.specs.Transport.{HasRead, HasWritten};

pub use crate::outcomes::{ReadOutcome, WriteOutcome};

/// A response that is being sent.
#[derive(Clone, Copy, Debug)]
pub struct Answered<'a> {
    /// The target of its request, as it was sent. It is empty where no head came.
    pub target: &'a [u8],
    /// Its status.
    pub status: u16,
    /// Whether bytes of a further request have been read.
    pub is_followed: bool,
}

/// The connection to a client, by calls that never wait.
pub trait Transport {
    ghost use Rattle.std.specs.Prelude.{ℕ, List, Option};
    ghost use Rattle.turns.specs.declared.outcomes.ReadOutcome.{ReadOutcome};
    ghost use Rattle.turns.specs.declared.outcomes.WriteOutcome.{WriteOutcome};

    // The bytes that it has delivered, where they are known.
    ghost delivered: { Self → Option (List ℕ) };

    // The bytes that it has accepted, where they are known.
    ghost accepted: { Self → Option (List ℕ) };

    // The results of a read: the transport before, the result, and the transport after.
    ghost reads: { Self → ReadOutcome → Self → Type 0 };

    // The results of a write: the transport before, the result, and the transport after.
    ghost writes: { Self → WriteOutcome → Self → Type 0 };

    // How the sending side is closed: the transport before, and after.
    ghost shuts: { Self → Self → Type 0 };

    /// Puts bytes that came at the start of the room.
    fn read(&mut self, room: &mut [u8]) -> ReadOutcome
        ensures bytes { HasRead (delivered self.old) (delivered self.new) result room.new }
        ensures accepted { Appends (accepted self.old) (accepted self.new) [] }
        ensures reads { reads self.old result self.new };

    /// Takes some first bytes of two parts.
    fn write(&mut self, first: &[u8], second: &[u8]) -> WriteOutcome
        ensures bytes { HasWritten (accepted self.old) (accepted self.new) (first.now ++ second.now) result }
        ensures delivered { Appends (delivered self.old) (delivered self.new) [] }
        ensures writes { writes self.old result self.new };

    /// Takes some first bytes of what is left of a response. A transport that notes responses learns here which it is.
    fn write_answer(
        &mut self,
        _answered: &Answered<'_>,
        first: &[u8],
        second: &[u8],
    ) -> WriteOutcome
        ensures bytes { HasWritten (accepted self.old) (accepted self.new) (first.now ++ second.now) result }
        ensures delivered { Appends (delivered self.old) (delivered self.new) [] }
        ensures writes { writes self.old result self.new }
    {
        self.write(first, second)
    }

    /// Closes the sending side: the client reads its end.
    fn shut_down(&mut self)
        ensures shuts { shuts self.old self.new }
        ensures accepted { Appends (accepted self.old) (accepted self.new) [] }
        ensures delivered { Appends (delivered self.old) (delivered self.new) [] };
}
