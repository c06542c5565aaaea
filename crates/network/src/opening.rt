//! Connections that are opened for calls that wait: those of administrators.

use httpedge::EdgeFault;
use std::alloc::Global;
use streams::{BufferedSource, Sink};

/// The two sides of a connection.
#[derive(Drop)]
pub struct Sides<R, W> {
    /// Where the bytes of the client come from.
    pub reader: R,
    /// Where the bytes for the client go.
    pub writer: W,
}

/// Stands for a closed connection, of which nothing is kept.
#[derive(Clone, Copy)]
pub struct NothingLeft;

/// A connection whose two sides can be opened.
pub trait Opens {
    ghost use Rattle.std.specs.Prelude.{Option, option_map};
    ghost use Rattle.httpedge.specs.declared.edge.EdgeFault.{EdgeFault};

    /// Where the bytes of a client come from.
    type Reader: BufferedSource + Drop;

    /// Where the bytes for a client go.
    type Writer: Sink + Drop;

    /// The rest of it once it is closed.
    type Closed: Drop;

    // What opening it may give: its two sides, or none.
    ghost opens: { Self → Option (Self.Reader × Self.Writer) → Type 0 };

    // What closing its two sides with a fault, or none, may leave.
    ghost closes: { Self.Reader → Self.Writer → Option EdgeFault → Self.Closed → Type 0 };

    /// Opens it for serving, in the thread that serves it. Where that fails there are no sides, and it is dropped.
    fn open(self, alloc: Global) -> Option<Sides<Self::Reader, Self::Writer>>
        ensures { opens self (option_map (λ sides. (sides.reader, sides.writer)) result) };

    /// Closes it, with its fault or none.
    fn close(sides: Sides<Self::Reader, Self::Writer>, fault: Option<EdgeFault>) -> Self::Closed
        ensures { closes sides.reader sides.writer fault result };
}
