ghost use Rattle.std.specs.Prelude.{◌≡◌, ◌≤◌, ◌+◌, ◌-◌, ℕ, List, Bool, Option, true, false, nat_eq, if◌then◌else◌, length, take, IfOk, OnErr, MatchResult};
ghost use Rattle.std.specs.Io.KnownBytes.{Appends, Keeps};

use thiserror::Error;

/// A sink took no bytes, or kept some back.
#[derive(Clone, Copy, Debug, Error)]
#[error("the writer failed")]
pub struct PutFailed;

/// Where bytes go.
pub trait Sink {
    // The bytes that it holds, where they are known.
    ghost held: { Self → Option (List ℕ) };

    // How many bytes it has taken.
    ghost taken: { Self → ℕ };

    // Whether a call of `flush` has succeeded since it last took a byte.
    ghost is_flushed: { Self → Bool };

    // Whether a call of `put` or `flush` has failed.
    ghost put_failed: { Self → Bool };

    /// Takes a prefix of some bytes, at least one where there are any, and returns how many.
    fn put(&mut self, bytes: &[u8]) -> Result<usize, PutFailed>
        ensures count { IfOk result (λ n. n ≤ length bytes.now) }
        ensures some { IfOk result (λ n. 1 ≤ length bytes.now → 1 ≤ n) }
        ensures bytes { IfOk result (λ n. Appends (held self.old) (held self.new) (take n bytes.now)) }
        ensures taken { IfOk result (λ n. taken self.new ≡ taken self.old + n) }
        ensures flushed { MatchResult result
            (λ n. is_flushed self.new ≡ (if nat_eq n 0 then is_flushed self.old else false))
            (λ _. is_flushed self.new ≡ is_flushed self.old) }
        ensures kept { OnErr result (Keeps (held self.old) (held self.new)) }
        ensures none_taken { OnErr result (taken self.new ≡ taken self.old) }
        ensures flag { MatchResult result (λ _. put_failed self.new ≡ put_failed self.old) (λ _. put_failed self.new ≡ true) };

    /// Hands on what it took and still keeps back.
    fn flush(&mut self) -> Result<(), PutFailed>
        ensures kept { Keeps (held self.old) (held self.new) }
        ensures none_taken { taken self.new ≡ taken self.old }
        ensures flushed { MatchResult result (λ _. is_flushed self.new ≡ true) (λ _. is_flushed self.new ≡ is_flushed self.old) }
        ensures flag { MatchResult result (λ _. put_failed self.new ≡ put_failed self.old) (λ _. put_failed self.new ≡ true) };

    /// How many bytes it has taken.
    fn taken(&self) -> u128
        ensures { result ≡ taken self.now };
}

/// A sink failed after so many bytes.
#[derive(Clone, Copy, Debug, PartialEq, Eq, Error)]
#[error("the writer failed after {written} bytes")]
pub struct WriteFault {
    /// How many bytes it took.
    pub written: u128,
}

impl WriteFault {
    /// The fault of a sink that failed, by how many bytes it had taken before.
    pub fn since<S: Sink>(sink: &S, before: u128) -> Self
        requires grown { before ≤ S.taken sink.now }
        ensures { result.written ≡ S.taken sink.now - before }
    {
        WriteFault {
            written: sink.taken() - before,
        }
    }
}
