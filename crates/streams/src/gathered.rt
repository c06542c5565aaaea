ghost use Rattle.std.specs.Prelude.{◌≡◌, ◌++◌, [], length};
ghost use Rattle.streams.specs.declared.gathered.TheConstants.{GATHERED};

use std::marker::Model;

/// How many bytes are gathered, at most.
pub const GATHERED: usize = 4_096;

/// Bytes that are gathered, so that small pieces leave in one call.
#[derive(Drop)]
pub struct Gathered {
    room: [u8; GATHERED],
    filled: usize,
}

impl Model for Gathered {
    ghost use Rattle.std.specs.Prelude.{ℕ, List, ◌≤◌, take};
    ghost use Rattle.streams.specs.declared.gathered.TheConstants.{GATHERED};

    ghost Value = { List ℕ };

    ghost view = { λ g. take g.filled g.room };

    ghost invariant = { λ g. g.filled ≤ GATHERED };
}

impl Gathered {
    /// None yet.
    pub fn new() -> Self
        ensures { result ≡ [] }
    {
        Gathered {
            room: [0; GATHERED],
            filled: 0,
        }
    }

    /// The bytes.
    pub fn as_slice(&self) -> &[u8]
        ensures { result.now ≡ self.now }
    {
        &self.room[..self.filled]
    }

    /// Gathers a prefix of a piece, as much as there is room for, and gives the rest.
    pub fn fill<'a>(&mut self, piece: &'a [u8]) -> &'a [u8]
        ensures { self.new ++ result.now ≡ self.old ++ piece.now }
    {
        let (prefix, rest) = piece.split_at(piece.len().min(GATHERED - self.filled));
        let end = self.filled + prefix.len();
        self.room[self.filled..end].copy_from_slice(prefix);
        self.filled = end;
        rest
    }

    /// Forgets them.
    pub fn clear(&mut self)
        ensures { self.new ≡ [] }
    {
        self.filled = 0;
    }
}
