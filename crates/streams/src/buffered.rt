ghost use Rattle.std.specs.Prelude.{ℕ, List, Option, IfSome};
ghost use Rattle.std.specs.Io.{StartsWith};

use crate::{Flagged, Source};
use std::alloc::Global;
use std::io::{BufReader, Read};

/// A source that holds bytes which came and weren't taken yet.
pub trait BufferedSource: Source {
    /// The bytes that it holds: calls of `take` give these first, and don't wait for them.
    fn buffer(&self) -> &[u8]
        ensures buffered { IfSome (Self.left self.now) (λ bytes. StartsWith bytes result.now) };
}

impl<T: Read> BufferedSource for Flagged<BufReader<T, Global>> {
    fn buffer(&self) -> &[u8] {
        self.inner().buffer()
    }
}
