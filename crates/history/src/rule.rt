//! The rule of a history, and the steps that it takes.

use logbook::{Gain, Plain, Play, Rule};
use std::marker::Brand;

/// The rule: the shared word is the length of the history.
pub struct Law;

impl Rule<[u8; 0], u64> for Law {
    ghost use Rattle.std.specs.Prelude.{[]};
    ghost use base.Fml.{ftrue};
    ghost use Rattle.history.specs.Rule.{IsKept};

    ghost holds = { λ cells log. IsKept cells log };

    ghost first = { [] };

    ghost hinted = { λ n log. Unit {0} };

    ghost shows = { λ log. [] };

    ghost keeps = { λ names log. ftrue };

    ghost moves = { λ ask before after answer. Unit {0} };
}

/// A step trades nothing.
pub struct Nothing;

impl Gain<[u8; 0], u64> for Nothing {
    ghost use base.Fml.{ftrue};

    ghost after = { λ names about answer. ftrue };
}

/// The step that adds a batch.
pub struct Adds;

impl Play<[u8; 0], u64> for Adds {
    ghost use Rattle.history.specs.Rule.{Added};

    ghost then = { Added };
}

// The argument of the step: the batch.
impl Plain<Vec<u8>, [u8; 0], u64> for Adds {
    ghost use Rattle.std.specs.Prelude.{None};

    ghost ask = { λ batch. batch.items };

    ghost state = { λ batch. None };
}

/// The identity of a history. Each call that makes one picks it.
pub trait Naming {
    ghost use Rattle.logbook.specs.Pages.{Book};

    /// The book that has the history.
    ghost book: { Book };
}

impl Naming for Brand {
    ghost book = { record { number = 0; log_name = 0; cells_name = 0 } };
}
