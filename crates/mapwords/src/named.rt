ghost use Rattle.std.specs.Prelude.{IfOk, ◌≡◌};
ghost use Rattle.mapwords.specs.Value.{named};

use mapdefs::{Duplicate, Text};
use std::alloc::{AllocError, Global};

/// A text that a keyword was given, and the line of its token.
#[derive(Drop)]
pub struct Named {
    pub text: Text,
    /// Counted from 1.
    pub line: u64,
}

impl Named {
    /// The text of a line.
    pub fn read(alloc: Global, text: &str, line: u64) -> Result<Named, AllocError>
        ensures { IfOk result (λ made. made ≡ named text.now line) }
    {
        Ok(Named {
            text: Text::from_str(alloc, text)?,
            line,
        })
    }
}

impl Duplicate for Named {
    fn duplicate(&self, alloc: Global) -> Result<Named, AllocError> {
        Ok(Named {
            text: self.text.duplicate(alloc)?,
            line: self.line,
        })
    }
}
