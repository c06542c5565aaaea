ghost use Rattle.std.specs.Prelude.{◌≡◌};
ghost use Rattle.mapdefs.specs.Alpha.{rgba_of};
ghost use Rattle.mapdefs.specs.PixelBytes.{rgba_bytes};

use crate::Rgb;
use std::marker::Model;

/// What a pixel of a picture has: a colour, or nothing. It is kept as its four bytes, so that a picture is written
/// without a choice for each pixel.
#[derive(Clone, Copy, Debug)]
pub struct PixelColour {
    red: u8,
    green: u8,
    blue: u8,
    alpha: u8,
}

impl Model for PixelColour {
    ghost use Rattle.std.specs.Prelude.{◌≡◌, ◌==◌, if◌then◌else◌, Option, None, Some};
    ghost use Rattle.mapdefs.specs.declared.colour.Rgb.{Rgb as RgbValue};

    ghost Value = { Option RgbValue };

    ghost view = { λ p. if p.alpha == 0 then None else Some (record { red = p.red; green = p.green; blue = p.blue }) };

    ghost inverse = { λ colour. elim colour [
      | None ↦ record { red = 0; green = 0; blue = 0; alpha = 0 }
      | Some c ↦ record { red = c.red; green = c.green; blue = c.blue; alpha = 255 }
    ] };

    ghost invariant = { λ p. p ≡ (if p.alpha == 0 then record { red = 0; green = 0; blue = 0; alpha = 0 } else record p { alpha = 255 }) };
}

impl PixelColour {
    /// A colour, or nothing.
    pub fn new(colour: Option<Rgb>) -> Self
        ensures { result ≡ colour }
    {
        match colour {
            Some(Rgb { red, green, blue }) => PixelColour {
                red,
                green,
                blue,
                alpha: 255,
            },
            None => PixelColour {
                red: 0,
                green: 0,
                blue: 0,
                alpha: 0,
            },
        }
    }

    /// The colour, if it is one.
    pub fn get(self) -> Option<Rgb>
        ensures { result ≡ self }
    {
        if self.alpha == 0 {
            return None;
        }
        Some(Rgb {
            red: self.red,
            green: self.green,
            blue: self.blue,
        })
    }

    /// Its red, green, blue and alpha.
    pub fn bytes(self) -> [u8; 4]
        ensures { result ≡ rgba_bytes (rgba_of self) }
    {
        [self.red, self.green, self.blue, self.alpha]
    }
}
