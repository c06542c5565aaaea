ghost use Rattle.std.specs.Prelude.{◌≡◌, ◌*◌, ◌^◌, ◌<◌, pos, ◌*ℤ◌, int_le};
ghost use Rattle.scaledenom.specs.Scale.{pixel_unit};

use geom::{Micro, PictureSide};
use std::marker::Model;

// How many nanometres of the ground a millionth of a degree counts as.
const DEGREE_UNIT: u128 = 111_319_491;

// How many nanometres a millionth of a metre is.
const METRE_UNIT: u128 = 1_000;

// How many nanometres a pixel counts as.
const PIXEL_UNIT: u64 = 280_000;

/// The scale of a picture: how wide the shown part of the world is on the ground, and by how many pixels, from
/// left to right, it is shown.
#[derive(Clone, Copy)]
pub struct Scale {
    // In nanometres.
    ground: u128,
    width: PictureSide,
}

impl Model for Scale {
    ghost use Rattle.std.specs.Prelude.{◌<◌, ◌^◌};
    ghost use Rattle.scaledenom.specs.Scale.{PictureScale};

    ghost Value = { PictureScale };

    ghost view = { λ s. record { ground = s.ground; width = s.width } };

    ghost invariant = { λ s. s.ground < 2 ^ 74 };

    ghost inverse = { λ s. record { ground = s.ground; width = s.width } };
}

impl Scale {
    ghost use Rattle.scaledenom.specs.Scale.{reaches, is_visible, scale_of_degrees, scale_of_metres};

    /// The scale at which so many millionths of a degree are shown by that many pixels.
    pub fn of(span: u32, width: PictureSide) -> Self
        ensures { result ≡ scale_of_degrees span width }
    {
        Scale {
            ground: u128::from(span) * DEGREE_UNIT,
            width,
        }
    }

    /// The scale at which so many millionths of a metre are shown by that many pixels.
    pub fn of_metres(micrometres: u64, width: PictureSide) -> Self
        ensures { result ≡ scale_of_metres micrometres width }
    {
        Scale {
            ground: u128::from(micrometres) * METRE_UNIT,
            width,
        }
    }

    /// Whether an object is visible whose scale denominator must be at least `min` and less than `max`.
    /// A bound that is absent doesn't count, nor does a `max` of 0 or less.
    pub fn within(self, min: Option<Micro>, max: Option<Micro>) -> bool
        ensures { result ≡ is_visible self min max }
    {
        let is_from = match min {
            Some(min) => self.reaches(min),
            None => true,
        };
        let is_before = match max {
            Some(max) => max.millionths() <= 0 || !self.reaches(max),
            None => true,
        };
        is_from && is_before
    }

    // Whether the scale denominator is the bound or more.
    fn reaches(self, bound: Micro) -> bool
        ensures { result ≡ reaches self bound }
    {
        is_share_at_most(bound, picture_width(self.width), self.ground)
    }
}

// How wide a picture is, in nanometres.
fn picture_width(width: PictureSide) -> u64
    ensures value { result ≡ width * pixel_unit }
    ensures range { result < 2 ^ 30 }
{
    u64::from(width.pixels()) * PIXEL_UNIT
}

// Whether a width, multiplied by so many millionths, is at most another one.
fn is_share_at_most(times: Micro, width: u64, most: u128) -> bool
    requires width { width < 2 ^ 30 }
    requires most { most < 2 ^ 74 }
    ensures { result ≡ int_le (times *ℤ pos width) (pos (most * 1000000)) }
{
    i128::from(times.millionths()) * i128::from(width) <= (most * 1_000_000) as i128
}
