ghost use Rattle.std.specs.Prelude.{◌≡◌};
ghost use Rattle.mapdefs.specs.Alpha.{rgba_of};
ghost use Rattle.mapdefs.specs.declared.rgba.Rgba.{Rgba as RgbaValue};

use crate::{PixelColour, Rgba};

/// A pixel of a picture that can be written: one that has a colour or nothing, or one with an alpha.
pub trait Pixel: Copy + Drop {
    // Its colour and its alpha.
    ghost rgba: { Self → RgbaValue };

    /// Its colour and its alpha.
    fn rgba(self) -> Rgba
        ensures { result ≡ rgba self };
}

impl Pixel for PixelColour {
    ghost rgba = { rgba_of };

    fn rgba(self) -> Rgba {
        let [red, green, blue, alpha] = self.bytes();
        Rgba {
            red,
            green,
            blue,
            alpha,
        }
    }
}

impl Pixel for Rgba {
    ghost rgba = { λ p. p };

    fn rgba(self) -> Rgba {
        self
    }
}
