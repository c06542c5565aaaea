ghost use Rattle.std.specs.Prelude.{◌≡◌, ℕ, ◌+◌, ◌*◌, ◌<◌, ◌≤◌, ◌^◌, None, length, slice_index_or, sum};
ghost use Rattle.smoothing.specs.Columns.{AreColumns, joined};
ghost use Rattle.smoothing.specs.Fine.{pixel_at};
ghost use Rattle.smoothing.specs.Sums.{HasBytes, inner_of, outer_of};

use crate::sums::{MOST, Sums};
use mapdefs::PixelColour;

/// Sums of the channels of pixels that stand in W columns.
#[derive(Clone, Copy)]
pub struct Columns<const W: usize> {
    outer: [u32; W],
    inner: [u32; W],
}

impl<const W: usize> Columns<W> {
    // Adds a row of pixels. There is no choice for each pixel, so that many are added at once.
    fn add_row(&mut self, run: &[PixelColour])
        requires count { length run.now ≡ W }
        requires few { (k : ℕ) → k < W → slice_index_or self.old.outer k 0 + MOST ≤ 2 ^ 28 }
        requires fewer { (k : ℕ) → k < W → slice_index_or self.old.inner k 0 + MOST ≤ 2 ^ 28 }
        ensures wide { length self.new.outer ≡ W }
        ensures high { length self.new.inner ≡ W }
        ensures bytes { (k : ℕ) → k < W → HasBytes (slice_index_or run.now k None) }
        ensures outer { (k : ℕ) → k < W → slice_index_or self.new.outer k 0 ≡ slice_index_or self.old.outer k 0 + outer_of (slice_index_or run.now k None) }
        ensures inner { (k : ℕ) → k < W → slice_index_or self.new.inner k 0 ≡ slice_index_or self.old.inner k 0 + inner_of (slice_index_or run.now k None) }
    {
        for k in 0..W {
            let sums = Sums {
                outer: self.outer[k],
                inner: self.inner[k],
            };
            let sums = sums.with(run[k]);
            self.outer[k] = sums.outer;
            self.inner[k] = sums.inner;
        }
    }
}

// The sum of a few numbers, of which each is one of four rows at most.
fn total(columns: &[u32]) -> u32
    requires count { length columns.now ≤ 4 }
    requires few { (k : ℕ) → k < length columns.now → slice_index_or columns.now k 0 ≤ 4 * MOST }
    ensures { result ≡ sum columns.now }
{
    let mut total = 0;
    for column in columns {
        total += *column;
    }
    total
}

impl<const W: usize> Columns<W> {
    /// The sums of W columns of fine pixels from one on, in N rows, of so many pixels each.
    pub fn of_rows<const N: usize>(fine: &[PixelColour], width: usize, first: usize) -> Self
        requires factor { N ≤ 4 }
        requires columns { first + W ≤ width }
        requires rows { N * width ≤ length fine.now }
        ensures { AreColumns (pixel_at fine.now width) first W N result.outer result.inner }
    {
        let mut columns = Columns {
            outer: [0; W],
            inner: [0; W],
        };
        for row in 0..N {
            let start = row * width + first;
            columns.add_row(&fine[start..start + W]);
        }
        columns
    }

    /// The sums of N columns from one on together.
    pub fn joined<const N: usize>(&self, at: usize) -> Sums
        requires factor { N ≤ 4 }
        requires columns { at + N ≤ W }
        requires few { (k : ℕ) → k < W → slice_index_or self.now.outer k 0 ≤ 4 * MOST }
        requires fewer { (k : ℕ) → k < W → slice_index_or self.now.inner k 0 ≤ 4 * MOST }
        ensures { result ≡ joined self.now.outer self.now.inner at N }
    {
        let outer = &self.outer[..];
        let inner = &self.inner[..];
        Sums {
            outer: total(&outer[at..at + N]),
            inner: total(&inner[at..at + N]),
        }
    }
}
