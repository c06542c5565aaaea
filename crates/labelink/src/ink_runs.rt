ghost use Rattle.std.specs.Prelude.{◌≡◌, ℤ, ◌^◌, ◌||◌, pos, ◌+ℤ◌, OnOk, IfOk};
ghost use Rattle.geom.specs.Range.{IsBelow};
ghost use Rattle.labelink.specs.Disc.{outlines_some, outlines_spans};
ghost use Rattle.labelink.specs.Ink.{outlines_glyph};
ghost use Rattle.labelink.specs.declared.reach.Reach.TheVariants.{Disc};

use crate::disc_chords::DiscChords;
use crate::placed_glyph::PlacedGlyph;
use crate::run_outline::RunOutline;
use scanfill::{Span, Spans};
use std::alloc::{AllocError, Global};

/// The outlines of the runs of a glyph's ink, which have the pixels of the outline of the glyph.
pub fn outline_runs<'a>(
    alloc: Global,
    glyph: &PlacedGlyph<'_>,
    chords: &'a DiscChords,
) -> Result<Vec<RunOutline<'a>>, AllocError>
    ensures { IfOk result (λ runs. (i j : ℤ) → outlines_some runs.items i j ≡ outlines_glyph (Disc chords.now) glyph.now i j) }
{
    let mut runs = Vec::new(alloc);
    let mut ink = Spans::new(alloc);
    let (_, left) = glyph.columns_of_box();
    let (height, top) = glyph.rows_of_box();
    for row in 0..height {
        glyph.ink_of_row(row, &mut ink)?;
        let line = InkLine {
            row: top + i64::from(row),
            left,
        };
        line.add_runs(ink.as_slice(), chords, &mut runs)?;
    }
    Ok(runs)
}

// A row of a glyph on the picture, and the leftmost column of the glyph.
#[derive(Clone, Copy)]
struct InkLine {
    row: i64,
    left: i64,
}

impl InkLine {
    // Adds the outline of each run of the row's ink.
    fn add_runs<'a>(
        self,
        ink: &[Span],
        chords: &'a DiscChords,
        runs: &mut Vec<RunOutline<'a>>,
    ) -> Result<(), AllocError>
        requires row { IsBelow (2 ^ 48) self.row }
        requires left { IsBelow (2 ^ 47) self.left }
        ensures { OnOk result ((i j : ℤ) → outlines_some runs.new.items i j ≡ (outlines_some runs.old.items i j || outlines_spans chords.now self.left self.row ink.now i j)) }
    {
        for span in ink {
            let from = column_at(self.left, span.from);
            let past = column_at(self.left, span.to);
            runs.push(RunOutline::new(chords, self.row, from, past))?;
        }
        Ok(())
    }
}

// The column of the picture, so many columns right of one.
fn column_at(left: i64, column: u16) -> i64
    requires { IsBelow (2 ^ 47) left }
    ensures value { result ≡ left +ℤ pos column }
    ensures range { IsBelow (2 ^ 48) result }
{
    left + i64::from(column)
}
