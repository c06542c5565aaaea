ghost use Rattle.std.specs.Prelude.{◌≡◌, ◌<◌, ◌++◌, ◌∷◌, ◌⊎◌, [], length, MatchBool};
ghost use mathlib.Core.List.{IsPrefix};
ghost use Rattle.history.specs.Rule.{head_of};
ghost use Rattle.history.specs.declared.prefix.TheConstants.{MAX_HISTORY};

use crate::rule::{Adds, Law, Naming, Nothing};
use logbook::{Offer, Seen, Start, Word};
use std::marker::{Model, PhantomData};

/// How many batches a history has, at most. No run of a program comes so far.
pub const MAX_HISTORY: u64 = 1 << 62;

/// An empty history, which has no name yet.
pub struct Blank {
    head: Word<[u8; 0], u64, Law>,
    seen: Seen<[u8; 0], u64, Law>,
    pub ghost empty: { seen.log ≡ [] },
    pub ghost head_is: { head ≡ head_of seen.book },
}

impl Blank {
    /// An empty history of its own.
    pub fn new() -> Self {
        let (seen, mut first, _second) = Seen::open(Start::alone(), 0, 0);
        Blank {
            head: Word::tracked(0, &mut first),
            seen,
        }
    }

    /// The history under a name, and the prefix that has no batch.
    pub fn named<J: Naming>(self) -> (History<J>, Prefix<J>)
        requires book { self.seen.book ≡ J.book }
        ensures empty { result.1 ≡ [] }
    {
        let Blank { head, seen } = self;
        let history = History {
            head,
            of: PhantomData,
        };
        let prefix = Prefix {
            length: 0,
            seen,
            of: PhantomData,
        };
        (history, prefix)
    }
}

/// A prefix of a history, without the history's name. Contracts see it as its batches.
#[derive(Drop)]
pub struct Shown {
    seen: Seen<[u8; 0], u64, Law>,
}

impl Model for Shown {
    ghost use Rattle.std.specs.Prelude.{ℕ, List};

    ghost Value = { List (List ℕ) };

    ghost view = { λ s. s.seen.log };
}

/// A history. A thread that has it may add to it.
#[derive(Drop)]
pub struct History<J: Naming> {
    head: Word<[u8; 0], u64, Law>,
    of: PhantomData<J>,
    ghost head_is: { head ≡ head_of J.book },
}

/// A prefix of the history that was seen. Contracts see it as its batches.
#[derive(Drop)]
pub struct Prefix<J: Naming> {
    length: u64,
    seen: Seen<[u8; 0], u64, Law>,
    of: PhantomData<J>,
}

impl<J: Naming> Model for Prefix<J> {
    ghost use Rattle.std.specs.Prelude.{◌≡◌, ℕ, List, length as list_length};

    ghost Value = { List (List ℕ) };

    ghost view = { λ f. f.seen.log };

    ghost invariant = { λ f. (f.length ≡ list_length f.seen.log) × (f.seen.book ≡ J.book) };
}

impl<J: Naming> Prefix<J> {
    /// How many batches it has.
    pub fn len(&self) -> u64
        ensures { result ≡ length self.now }
    {
        self.length
    }

    /// A copy of the prefix.
    pub fn copy(&self) -> Prefix<J>
        ensures { result ≡ self.now }
    {
        Prefix {
            length: self.length,
            seen: self.seen.again(),
            of: PhantomData,
        }
    }

    /// The same prefix, without the history's name.
    pub fn shown(&self) -> Shown
        ensures { result ≡ self.now }
    {
        Shown {
            seen: self.seen.again(),
        }
    }

    /// The longer of two prefixes, which the other begins.
    pub fn longer(&self, other: &Prefix<J>) -> Prefix<J>
        ensures one { (result ≡ self.now) ⊎ (result ≡ other.now) }
        ensures this { IsPrefix self.now result }
        ensures that { IsPrefix other.now result }
    {
        let mut both = self.seen.again();
        both.learn(&other.seen);
        if self.length < other.length {
            other.copy()
        } else {
            self.copy()
        }
    }

    /// Adds a batch after the prefix, if this is all of the history. Or it finds that the history is longer: then the
    /// prefix is longer, too. It waits for no thread.
    pub fn add(&mut self, history: &History<J>, batch: &Vec<u8>) -> bool
        requires room { length self.old < MAX_HISTORY }
        ensures adds { MatchBool result (self.new ≡ self.old ++ batch.now.items ∷ []) (IsPrefix self.old self.new) }
    {
        let mut offer: Offer<[u8; 0], u64, Law, Nothing> = self
            .seen
            .plain::<Nothing, Vec<u8>, Adds>(batch);
        let mut pen = self.seen.no_pen();
        let length = self.length;
        let found = history
            .head
            .compare_exchange::<Adds, Nothing>(
                length,
                length + 1,
                &mut self.seen,
                &mut offer,
                &mut pen,
            );
        self.length = if found == length { length + 1 } else { found };
        found == length
    }
}
