ghost use Rattle.std.specs.Prelude.{◌≡◌, ◌*◌, IfOk, replicate};
ghost use Rattle.mapdefs.specs.Alpha.{clear};

use crate::fine_picture::MeanPicture;
use crate::tile::Tile;
use crate::tile_rows::{FineRows, fill_tile};
use canvas::Canvas;
use geom::PictureSide;
use mapdefs::{Items, Rgba, SmoothFields, SmoothPicture};
use std::alloc::{AllocError, Global};
use std::marker::Model;

/// A smoothed picture while it is made: the means of the tiles that are drawn so far.
#[derive(Drop)]
pub struct Means {
    width: PictureSide,
    height: PictureSide,
    pixels: Vec<Rgba>,
}

impl Model for Means {
    ghost use Rattle.mapdefs.specs.declared.smooth_picture.SmoothFields.{SmoothFields as SmoothValue};
    ghost use Rattle.mapdefs.specs.PictureLimits.{IsSmoothWithinLimits};

    ghost Value = { SmoothValue };

    ghost view = { λ p. record { width = p.width; height = p.height; pixels = p.pixels.items } };

    ghost invariant = { λ p. IsSmoothWithinLimits (record { width = p.width; height = p.height; pixels = p.pixels.items }) };
}

impl Means {
    /// A picture of these sides without a colour.
    pub fn new(alloc: Global, width: PictureSide, height: PictureSide) -> Result<Self, AllocError>
        ensures { IfOk result (λ means. means ≡ record { width = width; height = height; pixels = replicate (width * height) clear }) }
    {
        let count = usize::from(width.pixels()) * usize::from(height.pixels());
        let none = Rgba {
            red: 0,
            green: 0,
            blue: 0,
            alpha: 0,
        };
        let pixels = vec![in alloc; none; count]?;
        Ok(Means {
            width,
            height,
            pixels,
        })
    }

    /// The picture as it has been made.
    pub fn into_picture(self) -> SmoothPicture
        ensures { result ≡ self }
    {
        let Means {
            width,
            height,
            pixels,
        } = self;
        SmoothPicture::new(SmoothFields {
            width,
            height,
            pixels: Items::of(pixels),
        })
    }
}

impl MeanPicture for Means {
    ghost picture = { λ p. p };

    fn width(&self) -> u16 {
        let _height = self.height.pixels();
        self.width.pixels()
    }

    fn height(&self) -> u16 {
        self.height.pixels()
    }

    fn fill(&mut self, factor: u8, canvas: &Canvas, tile: Tile) {
        let width = usize::from(self.width.pixels());
        let fine = FineRows {
            factor,
            pixels: canvas.pixels(),
            width: usize::from(canvas.width().pixels()),
        };
        fill_tile(fine, tile, width, &mut self.pixels);
    }
}
