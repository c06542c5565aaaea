ghost use Rattle.std.specs.Prelude.{◌≡◌, ℕ, ◌+◌, ◌*◌, ◌<◌, ◌≤◌, Some, length, slice_get};
ghost use Rattle.smoothing.specs.Fine.{pixel_at, pixels_in, smoothed};
ghost use Rattle.smoothing.specs.Sums.{AreSums};

use crate::group::{GROUP, pixels};
use crate::sums::Sums;
use mapdefs::{PixelColour, Rgba};

// The sums of N columns of fine pixels from one on, in N rows, of so many pixels each.
fn block_sums<const N: usize>(fine: &[PixelColour], width: usize, first: usize) -> Sums
    requires factor { N ≤ 4 }
    requires columns { first + N ≤ width }
    requires rows { N * width ≤ length fine.now }
    ensures { AreSums (pixels_in (pixel_at fine.now width) first N 0 N) result }
{
    let mut sums = Sums { outer: 0, inner: 0 };
    for row in 0..N {
        let start = row * width + first;
        sums = sums.with_run(&fine[start..start + N]);
    }
    sums
}

// The pixel in a column of the smoothed picture of factor N, from N rows of the fine picture, of so many pixels each.
fn pixel<const N: usize>(fine: &[PixelColour], width: usize, column: usize) -> Rgba
    requires some { 1 ≤ N }
    requires factor { N ≤ 4 }
    requires columns { N * column + N ≤ width }
    requires rows { N * width ≤ length fine.now }
    ensures { result ≡ smoothed N (pixel_at fine.now width) column 0 }
{
    block_sums::<N>(fine, width, N * column).mean((N * N) as u32)
}

// Fills a row of the smoothed picture of factor N from N rows of the fine picture, of so many pixels each: four pixels at
// once, of W columns, and then one by one.
fn fill<const N: usize, const W: usize>(fine: &[PixelColour], width: usize, row: &mut [Rgba])
    requires some { 1 ≤ N }
    requires factor { N ≤ 4 }
    requires group { W ≡ 4 * N }
    requires columns { N * length row.old ≤ width }
    requires rows { N * width ≤ length fine.now }
    ensures { (i : ℕ) → i < length row.old → slice_get row.new i ≡ Some (smoothed N (pixel_at fine.now width) i 0) }
{
    let mut i = 0;
    'groups: while row.len() - i >= GROUP {
        let [a, b, c, d] = pixels::<N, W>(fine, width, i);
        row[i] = a;
        row[i + 1] = b;
        row[i + 2] = c;
        row[i + 3] = d;
        i += GROUP;
    }
    'rest: while i < row.len() {
        row[i] = pixel::<N>(fine, width, i);
        i += 1;
    }
}

/// Fills a row of the smoothed picture of a factor from as many rows of the fine picture, of so many pixels each.
pub fn smooth_row(factor: u8, fine: &[PixelColour], width: usize, row: &mut [Rgba])
    requires some { 1 ≤ factor }
    requires most { factor ≤ 4 }
    requires columns { factor * length row.old ≤ width }
    requires rows { factor * width ≤ length fine.now }
    ensures { (i : ℕ) → i < length row.old → slice_get row.new i ≡ Some (smoothed factor (pixel_at fine.now width) i 0) }
{
    match factor {
        1 => fill::<1, 4>(fine, width, row),
        2 => fill::<2, 8>(fine, width, row),
        3 => fill::<3, 12>(fine, width, row),
        _ => fill::<4, 16>(fine, width, row),
    }
}
