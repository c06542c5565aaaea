ghost use Rattle.std.specs.Prelude.{◌≡◌, ◌≤◌, ◌<◌, ◌+◌, ◌-◌, ◌^◌, true, false, nat_eq, if◌then◌else◌, length, take, IfOk, OnOk, OnErr, MatchResult, MatchOption};
ghost use Rattle.std.specs.Io.KnownBytes.{Appends, Keeps, Consumes, ReadConsumes};

use crate::{PutFailed, Sink, Source, TakeFailed};
use std::io::{Read, Write};

/// A reader or a writer of std, or both. It remembers whether it has failed, with one flag for reading
/// and one for writing. It also remembers how often it was read, how many bytes it has taken, and
/// whether it was flushed since. A write that takes none of some bytes counts as failed.
#[derive(Drop)]
pub struct Flagged<T> {
    inner: T,
    take_failed: bool,
    put_failed: bool,
    is_flushed: bool,
    reads: u128,
    taken: u128,
}

impl<T> Flagged<T> {
    /// The value with its flags unset: it wasn't read, and has taken nothing.
    pub fn new(inner: T) -> Self
        ensures value { result.inner ≡ inner }
        ensures take_flag { result.take_failed ≡ false }
        ensures put_flag { result.put_failed ≡ false }
        ensures flushed { result.is_flushed ≡ true }
        ensures reads { result.reads ≡ 0 }
        ensures taken { result.taken ≡ 0 }
    {
        Flagged {
            inner,
            take_failed: false,
            put_failed: false,
            is_flushed: true,
            reads: 0,
            taken: 0,
        }
    }

    /// The reader or writer.
    pub fn inner(&self) -> &T
        ensures { result.now ≡ self.now.inner }
    {
        &self.inner
    }

    /// The reader or writer, without its flags.
    pub fn into_inner(self) -> T
    where
        T: Drop,
        ensures { result ≡ self.inner }
    {
        let Flagged { inner, .. } = self;
        inner
    }

    /// How many calls of `take` it has counted: all but those that it refused, where its count
    /// would have passed the largest `u128`.
    pub fn reads(&self) -> u128
        ensures { result ≡ self.now.reads }
    {
        self.reads
    }

    /// Whether a call of `take` has failed.
    pub fn take_failed(&self) -> bool
        ensures { result ≡ self.now.take_failed }
    {
        self.take_failed
    }

    /// Whether a call of `put` or `flush` has failed.
    pub fn put_failed(&self) -> bool
        ensures { result ≡ self.now.put_failed }
    {
        self.put_failed
    }

    // Notes that a call of `take` failed.
    fn fail_take(&mut self) -> TakeFailed
        ensures { self.new ≡ record self.old { take_failed = true } }
    {
        self.take_failed = true;
        TakeFailed
    }

    // Notes that a call of `put` or `flush` failed.
    fn fail_put(&mut self) -> PutFailed
        ensures { self.new ≡ record self.old { put_failed = true } }
    {
        self.put_failed = true;
        PutFailed
    }
}

impl<T: Read> Source for Flagged<T> {
    ghost left = { λ s. T.remaining s.inner };

    ghost took = { λ old given new. MatchOption given
        (new.take_failed ≡ true)
        (λ bytes. Consumes (T.remaining old.inner) (T.remaining new.inner) bytes × (new.reads ≡ old.reads + 1)) };

    ghost reads = { λ s. s.reads };

    ghost take_failed = { λ s. s.take_failed };

    // It fails also where its count would pass the largest `u128`, and counts every other call.
    fn take(&mut self, room: &mut [u8]) -> Result<usize, TakeFailed>
        ensures count { IfOk result (λ n. n ≤ length room.new) }
        ensures bytes { ReadConsumes (T.remaining self.old.inner) (T.remaining self.new.inner) result room.new }
        ensures took { MatchResult result
            (λ n. Consumes (T.remaining self.old.inner) (T.remaining self.new.inner) (take n room.new)
            × (self.new.reads ≡ self.old.reads + 1))
            (λ _. self.new.take_failed ≡ true) }
        ensures counted { OnOk result (self.new.reads ≡ self.old.reads + 1) }
        ensures least { OnErr result (self.old.reads ≤ self.new.reads) }
        ensures most { OnErr result (self.new.reads ≤ self.old.reads + 1) }
        ensures failed { OnErr result (self.old.reads < 2 ^ 128 - 1 → self.new.reads ≡ self.old.reads + 1) }
        ensures flag { MatchResult result (λ _. self.new.take_failed ≡ self.old.take_failed) (λ _. self.new.take_failed ≡ true) }
        ensures put_flag { self.new.put_failed ≡ self.old.put_failed }
        ensures flushed { self.new.is_flushed ≡ self.old.is_flushed }
        ensures taken { self.new.taken ≡ self.old.taken }
    {
        if self.reads == u128::MAX {
            return Err(self.fail_take());
        }
        self.reads += 1;
        match self.inner.read(room) {
            Ok(count) => Ok(count),
            Err(_) => Err(self.fail_take()),
        }
    }
}

impl<T: Write> Sink for Flagged<T> {
    ghost held = { λ s. T.contents s.inner };

    ghost taken = { λ s. s.taken };

    ghost is_flushed = { λ s. s.is_flushed };

    ghost put_failed = { λ s. s.put_failed };

    // It fails also where its count would pass the largest `u128`.
    fn put(&mut self, bytes: &[u8]) -> Result<usize, PutFailed>
        ensures count { IfOk result (λ n. n ≤ length bytes.now) }
        ensures some { IfOk result (λ n. 1 ≤ length bytes.now → 1 ≤ n) }
        ensures bytes { IfOk result (λ n. Appends (T.contents self.old.inner) (T.contents self.new.inner) (take n bytes.now)) }
        ensures taken { IfOk result (λ n. self.new.taken ≡ self.old.taken + n) }
        ensures flushed { MatchResult result
            (λ n. self.new.is_flushed ≡ (if nat_eq n 0 then self.old.is_flushed else false))
            (λ _. self.new.is_flushed ≡ self.old.is_flushed) }
        ensures kept { OnErr result (Keeps (T.contents self.old.inner) (T.contents self.new.inner)) }
        ensures none_taken { OnErr result (self.new.taken ≡ self.old.taken) }
        ensures flag { MatchResult result (λ _. self.new.put_failed ≡ self.old.put_failed) (λ _. self.new.put_failed ≡ true) }
        ensures take_flag { self.new.take_failed ≡ self.old.take_failed }
        ensures reads { self.new.reads ≡ self.old.reads }
    {
        if self.taken > u128::MAX - bytes.len() as u128 {
            return Err(self.fail_put());
        }
        match self.inner.write(bytes) {
            Ok(count) if count > 0 || bytes.is_empty() => {
                self.taken += count as u128;
                self.is_flushed = self.is_flushed && count == 0;
                Ok(count)
            }
            _ => Err(self.fail_put()),
        }
    }

    fn flush(&mut self) -> Result<(), PutFailed>
        ensures kept { Keeps (T.contents self.old.inner) (T.contents self.new.inner) }
        ensures none_taken { self.new.taken ≡ self.old.taken }
        ensures flushed { MatchResult result (λ _. self.new.is_flushed ≡ true) (λ _. self.new.is_flushed ≡ self.old.is_flushed) }
        ensures flag { MatchResult result (λ _. self.new.put_failed ≡ self.old.put_failed) (λ _. self.new.put_failed ≡ true) }
        ensures take_flag { self.new.take_failed ≡ self.old.take_failed }
        ensures reads { self.new.reads ≡ self.old.reads }
    {
        match self.inner.flush() {
            Ok(()) => {
                self.is_flushed = true;
                Ok(())
            }
            Err(_) => Err(self.fail_put()),
        }
    }

    fn taken(&self) -> u128 {
        self.taken
    }
}
