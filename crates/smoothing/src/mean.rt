ghost use Rattle.std.specs.Prelude.{◌≡◌, ◌+◌, ◌*◌, ◌/◌, ◌%◌, ◌<◌, ◌≤◌, ◌↔◌, List, Option, length, IsTrue};
ghost use Rattle.mapdefs.specs.declared.colour.Rgb.{Rgb as RgbValue};
ghost use Rattle.smoothing.specs.Channels.{channel_means};
ghost use Rattle.smoothing.specs.Mean.{mean_of, nearest};
ghost use Rattle.smoothing.specs.Shares.{AreShares, IsWhole};
ghost use Rattle.smoothing.specs.Sums.{AreSums};

use crate::sums::Sums;
use mapdefs::Rgba;

// A total shared by so many, rounded to the nearest, a half up.
fn nearest(total: u32, count: u32) -> u8
    requires some { 0 < count }
    requires few { count ≤ 16 }
    requires within { total ≤ 255 * count }
    ensures { result ≡ nearest total count }
{
    ((2 * total + count) / (2 * count)) as u8
}

impl Sums {
    /// Whether each of so many pixels has a colour, or none.
    pub fn is_whole(self, count: u32) -> bool
        requires { count ≤ 16 }
        ensures { IsTrue result ↔ IsWhole count self }
    {
        let alpha = self.inner / 65_536;
        alpha == 0 || alpha == 255 * count
    }

    // The mean of so many pixels, of which so many have a colour.
    fn shared(self, colours: u32, count: u32) -> Rgba
        requires some { 0 < colours }
        requires few { colours ≤ count }
        requires most { count ≤ 16 }
        requires red { self.outer % 65536 ≤ 255 * colours }
        requires green { self.inner % 65536 ≤ 255 * colours }
        requires blue { self.outer / 65536 ≤ 255 * colours }
        requires alpha { self.inner / 65536 ≤ 255 * count }
        ensures { result ≡ channel_means self colours count }
    {
        Rgba {
            red: nearest(self.outer % 65_536, colours),
            green: nearest(self.inner % 65_536, colours),
            blue: nearest(self.outer / 65_536, colours),
            alpha: nearest(self.inner / 65_536, count),
        }
    }

    /// The mean of so many pixels that have a colour each, or none.
    pub fn whole_mean(self, count: u32) -> Rgba
        requires some { 0 < count }
        requires few { count ≤ 16 }
        requires shares { AreShares count self }
        requires whole { IsWhole count self }
        ensures { (pixels : List (Option RgbValue)) → length pixels ≡ count → AreSums pixels self → result ≡ mean_of pixels }
    {
        self.shared(count, count)
    }

    /// The mean of so many pixels.
    pub fn mean(self, count: u32) -> Rgba
        requires some { 0 < count }
        requires few { count ≤ 16 }
        requires shares { AreShares count self }
        ensures { (pixels : List (Option RgbValue)) → length pixels ≡ count → AreSums pixels self → result ≡ mean_of pixels }
    {
        if self.is_whole(count) {
            self.whole_mean(count)
        } else {
            self.shared(self.inner / 65_536 / 255, count)
        }
    }
}
