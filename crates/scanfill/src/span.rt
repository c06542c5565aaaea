ghost use Rattle.std.specs.Prelude.{◌≡◌, [], ◌∷◌, ◌++◌, min, OnOk, OnErr};
ghost use Rattle.clip.specs.EdgeClass.{at_least_zero};

use clip::clamped;
use smallvec::SmallVec;
use std::alloc::{AllocError, Global};
use std::marker::Model;

/// A run of pixels in a row.
#[derive(Clone, Copy, Default, PartialEq, Eq)]
pub struct Span {
    /// The first column.
    pub from: u16,
    /// The column after the last one.
    pub to: u16,
}

impl Span {
    /// The columns, or the rows, of the first `end`, from one number on and before another one. Each of the two may lie before
    /// the first or past the last.
    pub fn clipped(from: i64, to: i64, end: u16) -> Span
        ensures { result ≡ record { from = min (at_least_zero from) end; to = min (at_least_zero to) end } }
    {
        Span {
            from: clamped(i128::from(from), end),
            to: clamped(i128::from(to), end),
        }
    }
}

/// The spans of a row. Up to eight of them take no memory.
#[derive(Drop)]
pub struct Spans {
    spans: SmallVec<Span, 8>,
}

impl Model for Spans {
    ghost use Rattle.std.specs.Prelude.{List};
    ghost use Rattle.scanfill.specs.declared.span.Span.{Span};

    ghost Value = { List Span };

    ghost view = { λ s. s.spans.items };
}

impl Spans {
    /// No spans. It takes no memory.
    pub fn new(alloc: Global) -> Self
        ensures { result ≡ [] }
    {
        Spans {
            spans: SmallVec::new(alloc),
        }
    }

    /// The spans, one after another.
    pub fn as_slice(&self) -> &[Span]
        ensures { result.now ≡ self.now }
    {
        self.spans.as_slice()
    }

    /// Removes all spans. Their memory is kept for the next row.
    pub fn clear(&mut self)
        ensures { self.new ≡ [] }
    {
        self.spans.clear();
    }

    /// Adds a span after the others. Where memory is refused nothing changes.
    pub fn push(&mut self, span: Span) -> Result<(), AllocError>
        ensures ok { OnOk result (self.new ≡ self.old ++ span ∷ []) }
        ensures err { OnErr result (self.new ≡ self.old) }
    {
        match self.spans.push(span) {
            Ok(()) => Ok(()),
            Err(_) => Err(AllocError),
        }
    }
}
