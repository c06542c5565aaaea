ghost use Rattle.std.specs.Prelude.{◌≡◌, ◌≤◌, ◌<◌, ◌+◌, length};
ghost use Rattle.geom.specs.Side.{picture_side};
ghost use Rattle.geom.specs.declared.side.TheConstants.{MAX_PICTURE_SIDE};

use std::marker::Model;

/// The most pixels on a side of a picture.
pub const MAX_PICTURE_SIDE: u16 = 2_048;

/// The side of a picture: 1 to `MAX_PICTURE_SIDE` pixels.
#[derive(Clone, Copy)]
pub struct PictureSide {
    pixels: u16,
}

impl Model for PictureSide {
    ghost use Rattle.std.specs.Prelude.{ℕ};
    ghost use Rattle.geom.specs.Side.{IsPictureSide};

    ghost Value = { ℕ };

    ghost view = { λ s. s.pixels };

    ghost invariant = { λ s. IsPictureSide s.pixels };

    ghost inverse = { λ n. record { pixels = n } };
}

impl PictureSide {
    ghost use Rattle.geom.specs.Side.{IsPictureSide};

    /// The side of that many pixels, if a picture may have it.
    pub fn new(pixels: u16) -> Option<Self>
        ensures { result ≡ picture_side pixels }
    {
        if pixels == 0 || pixels > MAX_PICTURE_SIDE {
            return None;
        }
        Some(PictureSide { pixels })
    }

    /// The side whose last pixel has that index, counted from 0.
    pub fn with_last(index: u16) -> Self
        requires { index < MAX_PICTURE_SIDE }
        ensures { result ≡ index + 1 }
    {
        PictureSide { pixels: index + 1 }
    }

    /// The number of pixels.
    pub fn pixels(self) -> u16
        ensures value { result ≡ self }
        ensures limits { IsPictureSide result }
    {
        self.pixels
    }
}
