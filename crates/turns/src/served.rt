//! What a table of connections gives of a turn, and of a connection that leaves it.

ghost use Rattle.std.specs.Prelude.{◌≡◌, option_map, unwrap_or, false};

use crate::{Next, OpenConnection, TurnEnd};

/// A turn.
#[derive(Clone, Copy, Debug)]
pub struct Served {
    /// The slot that had it.
    pub slot: usize,
    /// What the connection at that slot waits for, if there is one.
    pub next: Option<Next>,
    /// Whether a query may have been asked.
    pub asked: bool,
    /// When it ended, in milliseconds of the worker's clock: later than it began only where a query may have been asked.
    pub ended: u64,
}

impl Served {
    // What the turn at a slot left that began at a moment; or there was no connection.
    pub(crate) fn of(slot: usize, turned: Option<TurnEnd>, began: u64) -> Self
        ensures slot { result.slot ≡ slot }
        ensures next { result.next ≡ option_map (λ t. t.next) turned }
        ensures asked { result.asked ≡ unwrap_or (option_map (λ t. t.asked) turned) false }
        ensures ended { result.ended ≡ unwrap_or (option_map (λ t. t.ended) turned) began }
    {
        match turned {
            Some(turned) => Served {
                slot,
                next: Some(turned.next),
                asked: turned.asked,
                ended: turned.ended,
            },
            None => Served {
                slot,
                next: None,
                asked: false,
                ended: began,
            },
        }
    }
}

/// A connection that gave way.
#[derive(Drop)]
pub struct Closed<T> {
    /// The slot that it left.
    pub slot: usize,
    /// The connection.
    pub connection: OpenConnection<T>,
}
