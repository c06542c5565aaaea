use crate::{Items, Limited, Limits, Rgba};
use geom::PictureSide;

/// What a smoothed picture is made of: its sides in pixels, and its pixels row by row from the top, each row
/// from the left. A pixel has a colour and an alpha.
#[derive(Drop)]
pub struct SmoothFields {
    pub width: PictureSide,
    pub height: PictureSide,
    pub pixels: Items<Rgba>,
}

impl Limits for SmoothFields {
    ghost use Rattle.mapdefs.specs.PictureLimits.{IsSmoothWithinLimits};

    ghost within = { IsSmoothWithinLimits };
}

/// A smoothed picture. There are as many pixels as its sides say.
pub type SmoothPicture = Limited<SmoothFields>;
