ghost use Rattle.std.specs.Prelude.{◌≡◌, ◌+◌, ◌*◌, ◌/◌, ◌%◌, ◌≤◌, ◌^◌, ◌++◌, List, Option, length};
ghost use Rattle.std.specs.List.{sum_by};
ghost use Rattle.mapdefs.specs.declared.colour.Rgb.{Rgb as RgbValue};
ghost use Rattle.smoothing.specs.Sums.{AreSums, HasBytes, inner_of, outer_of, word_of};

use mapdefs::PixelColour;

/// The most that two channels of a pixel make in one number.
pub const MOST: u32 = 16_711_935;

/// Sums of the channels of some pixels: of red and blue, and of green and alpha, two in one number, of sixteen bits each.
#[derive(Clone, Copy)]
pub struct Sums {
    pub outer: u32,
    pub inner: u32,
}

/// The four channels of a pixel in one number.
pub fn word(pixel: PixelColour) -> u32
    ensures value { result ≡ word_of pixel }
    ensures bytes { HasBytes pixel }
{
    let [red, green, blue, alpha] = pixel.bytes();
    u32::from(red)
        + 256 * u32::from(green)
        + 65_536 * u32::from(blue)
        + 16_777_216 * u32::from(alpha)
}

// The first and the third channel of a word.
fn outer(word: u32) -> u32
    ensures value { result ≡ word % 256 + 65536 * (word / 65536 % 256) }
    ensures few { result ≤ MOST }
{
    word % 256 + 65_536 * (word / 65_536 % 256)
}

// The second and the fourth channel of a word.
fn inner(word: u32) -> u32
    ensures value { result ≡ word / 256 % 256 + 65536 * (word / 16777216) }
    ensures few { result ≤ MOST }
{
    word / 256 % 256 + 65_536 * (word / 16_777_216)
}

impl Sums {
    /// The sums with one pixel more.
    pub fn with(self, pixel: PixelColour) -> Self
        requires outer { self.outer + MOST ≤ 2 ^ 28 }
        requires inner { self.inner + MOST ≤ 2 ^ 28 }
        ensures bytes { HasBytes pixel }
        ensures outer { result.outer ≡ self.outer + outer_of pixel }
        ensures inner { result.inner ≡ self.inner + inner_of pixel }
        ensures few { result.outer ≤ self.outer + MOST }
        ensures fewer { result.inner ≤ self.inner + MOST }
    {
        let word = word(pixel);
        Sums {
            outer: self.outer + outer(word),
            inner: self.inner + inner(word),
        }
    }

    /// The sums with the pixels of a run more.
    pub fn with_run(self, run: &[PixelColour]) -> Self
        requires outer { self.outer + length run.now * MOST ≤ 2 ^ 28 }
        requires inner { self.inner + length run.now * MOST ≤ 2 ^ 28 }
        ensures sums { (before : List (Option RgbValue)) → AreSums before self → AreSums (before ++ run.now) result }
        ensures few { result.outer ≤ self.outer + length run.now * MOST }
        ensures fewer { result.inner ≤ self.inner + length run.now * MOST }
    {
        let mut sums = self;
        for pixel in run {
            sums = sums.with(*pixel);
        }
        sums
    }
}
