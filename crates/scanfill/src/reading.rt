ghost use Rattle.std.specs.Prelude.{◌≡◌, ℕ, ◌≤◌, Bool, [], IfOk, OnOk};
ghost use Rattle.scanfill.specs.Reading.{AllAre, IsReading};
ghost use Rattle.scanfill.specs.Runs.{AreRunsFrom};

use crate::span::{Span, Spans};
use std::alloc::AllocError;

/// Reads a row from left to right into its spans. Every cover reads its rows by it.
#[derive(Clone, Copy)]
pub enum Reading {
    /// The last pixel isn't covered, or there is none yet.
    Outside,
    /// The last pixel is covered.
    Inside {
        /// The first pixel of its run.
        from: u16,
    },
}

impl Reading {
    /// Reads the pixels in some columns, of which all are covered or none is. A run that ends before them is
    /// added to `out`. They may be none.
    pub fn go_on(
        self,
        columns: Span,
        is_covered: bool,
        out: &mut Spans,
    ) -> Result<Reading, AllocError>
        requires { columns.from ≤ columns.to }
        ensures { IfOk result (λ next. (test : ℕ → Bool) (end : ℕ) → columns.to ≤ end → AllAre test is_covered columns.from columns.to →
            IsReading test end columns.from self out.old → IsReading test end columns.to next out.new) }
    {
        let Span { from, to } = columns;
        if from == to {
            return Ok(self);
        }
        match self {
            Reading::Outside if is_covered => Ok(Reading::Inside { from }),
            Reading::Inside { from: start } if !is_covered => {
                out.push(Span {
                    from: start,
                    to: from,
                })?;
                Ok(Reading::Outside)
            }
            same => Ok(same),
        }
    }

    /// Ends the row, at its end. A run that lasts up to there is added to `out`.
    pub fn finish(self, end: u16, out: &mut Spans) -> Result<(), AllocError>
        ensures { OnOk result ((test : ℕ → Bool) → IsReading test end end self out.old → AreRunsFrom test 0 end out.new) }
    {
        match self {
            Reading::Outside => Ok(()),
            Reading::Inside { from } => out.push(Span { from, to: end }),
        }
    }
}
