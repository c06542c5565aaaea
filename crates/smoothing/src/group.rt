ghost use Rattle.std.specs.Prelude.{◌≡◌, ℕ, ◌+◌, ◌*◌, ◌<◌, ◌≤◌, [], ◌∷◌, List, Option, None, length, slice_index_or, IsTrue};
ghost use Rattle.mapdefs.specs.declared.colour.Rgb.{Rgb as RgbValue};
ghost use Rattle.smoothing.specs.Blocks.{IsBlock};
ghost use Rattle.smoothing.specs.Fine.{pixel_at, pixels_in, smoothed};
ghost use Rattle.smoothing.specs.Mean.{mean_of};
ghost use Rattle.smoothing.specs.Shares.{AreShares, IsWhole};

use crate::columns::Columns;
use crate::sums::{Sums, word};
use mapdefs::{Pixel, PixelColour, Rgba};

/// How many pixels of the smoothed picture are made at once.
pub const GROUP: usize = 4;

// Whether all pixels of a run are the same as one. There is no choice for each pixel, so that many are compared at once.
fn are_all(run: &[PixelColour], colour: PixelColour) -> bool
    ensures { IsTrue result → (k : ℕ) → k < length run.now → slice_index_or run.now k None ≡ colour }
{
    let wanted = word(colour);
    let mut same = true;
    for pixel in run {
        same &= word(*pixel) == wanted;
    }
    same
}

// Whether all fine pixels in W columns from one on, in N rows of so many pixels each, are the same as one.
fn is_plain<const N: usize, const W: usize>(
    fine: &[PixelColour],
    width: usize,
    first: usize,
    colour: PixelColour,
) -> bool
    requires columns { first + W ≤ width }
    requires rows { N * width ≤ length fine.now }
    ensures { IsTrue result → (i j : ℕ) → i < W → j < N → pixel_at fine.now width (first + i) j ≡ colour }
{
    let mut plain = true;
    for row in 0..N {
        let start = row * width + first;
        plain &= are_all(&fine[start..start + W], colour);
    }
    plain
}

// The sums of the fine pixels of a group.
#[derive(Clone, Copy)]
struct Group {
    a: Sums,
    b: Sums,
    c: Sums,
    d: Sums,
}

impl Group {
    // Whether in each pixel all fine ones have a colour, or none has.
    fn is_whole(&self, count: u32) -> bool
        requires { count ≤ 16 }
        ensures a { IsTrue result → IsWhole count self.now.a }
        ensures b { IsTrue result → IsWhole count self.now.b }
        ensures c { IsTrue result → IsWhole count self.now.c }
        ensures d { IsTrue result → IsWhole count self.now.d }
    {
        self.a.is_whole(count)
            & self.b.is_whole(count)
            & self.c.is_whole(count)
            & self.d.is_whole(count)
    }

    // The means of the pixels, of N times N fine ones each, where in each all have a colour, or none has. The number is known
    // at compile time, so that nothing is divided.
    fn whole_means<const N: usize>(&self) -> [Rgba; GROUP]
        requires some { 1 ≤ N }
        requires few { N ≤ 4 }
        requires a { AreShares (N * N) self.now.a × IsWhole (N * N) self.now.a }
        requires b { AreShares (N * N) self.now.b × IsWhole (N * N) self.now.b }
        requires c { AreShares (N * N) self.now.c × IsWhole (N * N) self.now.c }
        requires d { AreShares (N * N) self.now.d × IsWhole (N * N) self.now.d }
        ensures { (a b c d : List (Option RgbValue)) → IsBlock (N * N) a self.now.a → IsBlock (N * N) b self.now.b → IsBlock (N * N) c self.now.c → IsBlock (N * N) d self.now.d →
            result ≡ mean_of a ∷ mean_of b ∷ mean_of c ∷ mean_of d ∷ [] }
    {
        let count = (N * N) as u32;
        [
            self.a.whole_mean(count),
            self.b.whole_mean(count),
            self.c.whole_mean(count),
            self.d.whole_mean(count),
        ]
    }

    // The means of the pixels, of so many fine ones each.
    fn means(&self, count: u32) -> [Rgba; GROUP]
        requires some { 1 ≤ count }
        requires few { count ≤ 16 }
        requires a { AreShares count self.now.a }
        requires b { AreShares count self.now.b }
        requires c { AreShares count self.now.c }
        requires d { AreShares count self.now.d }
        ensures { (a b c d : List (Option RgbValue)) → IsBlock count a self.now.a → IsBlock count b self.now.b → IsBlock count c self.now.c → IsBlock count d self.now.d →
            result ≡ mean_of a ∷ mean_of b ∷ mean_of c ∷ mean_of d ∷ [] }
    {
        [
            self.a.mean(count),
            self.b.mean(count),
            self.c.mean(count),
            self.d.mean(count),
        ]
    }
}

// The sums of the groups's pixels, of N columns from one on each, in N rows of fine pixels, of so many each.
fn group_sums<const N: usize, const W: usize>(
    fine: &[PixelColour],
    width: usize,
    first: usize,
) -> Group
    requires factor { N ≤ 4 }
    requires group { W ≡ 4 * N }
    requires columns { first + W ≤ width }
    requires rows { N * width ≤ length fine.now }
    ensures a { IsBlock (N * N) (pixels_in (pixel_at fine.now width) first N 0 N) result.a }
    ensures b { IsBlock (N * N) (pixels_in (pixel_at fine.now width) (first + N) N 0 N) result.b }
    ensures c { IsBlock (N * N) (pixels_in (pixel_at fine.now width) (first + 2 * N) N 0 N) result.c }
    ensures d { IsBlock (N * N) (pixels_in (pixel_at fine.now width) (first + 3 * N) N 0 N) result.d }
{
    let columns = Columns::<W>::of_rows::<N>(fine, width, first);
    Group {
        a: columns.joined::<N>(0),
        b: columns.joined::<N>(N),
        c: columns.joined::<N>(2 * N),
        d: columns.joined::<N>(3 * N),
    }
}

/// The pixels in four columns from one on of the smoothed picture of factor N, from N rows of the fine picture, of so many
/// pixels each. Where all fine ones are as the one left of them, nothing is summed.
pub fn pixels<const N: usize, const W: usize>(
    fine: &[PixelColour],
    width: usize,
    column: usize,
) -> [Rgba; GROUP]
    requires some { 1 ≤ N }
    requires factor { N ≤ 4 }
    requires group { W ≡ 4 * N }
    requires columns { N * column + W ≤ width }
    requires rows { N * width ≤ length fine.now }
    ensures { result ≡ smoothed N (pixel_at fine.now width) column 0 ∷ smoothed N (pixel_at fine.now width) (column + 1) 0
        ∷ smoothed N (pixel_at fine.now width) (column + 2) 0 ∷ smoothed N (pixel_at fine.now width) (column + 3) 0 ∷ [] }
{
    let first = N * column;
    let left = fine[first.saturating_sub(1)];
    if is_plain::<N, W>(fine, width, first, left) {
        return [left.rgba(); GROUP];
    }
    let sums = group_sums::<N, W>(fine, width, first);
    let count = (N * N) as u32;
    if sums.is_whole(count) {
        sums.whole_means::<N>()
    } else {
        sums.means(count)
    }
}
