ghost use Rattle.std.specs.Prelude.{◌≡◌};
ghost use Rattle.bdffont.specs.Side.{box_side};

use mapdefs::BitmapBox;
use std::marker::Model;

/// A box whose sides and offsets are at most `MAX_FINE_GLYPH_SIDE`. Contracts see the box.
#[derive(Clone, Copy)]
pub struct SmallBox {
    bounds: BitmapBox,
}

impl Model for SmallBox {
    ghost use Rattle.mapdefs.specs.FontLimits.{IsBoxWithin};
    ghost use Rattle.mapdefs.specs.declared.font.BitmapBox.{BitmapBox};
    ghost use Rattle.mapdefs.specs.declared.limits.TheConstants.{MAX_FINE_GLYPH_SIDE};

    ghost Value = { BitmapBox };

    ghost view = { λ b. b.bounds };

    ghost invariant = { λ b. IsBoxWithin MAX_FINE_GLYPH_SIDE b.bounds };

    ghost inverse = { λ b. record { bounds = b } };
}

impl SmallBox {
    ghost use Rattle.mapdefs.specs.FontLimits.{IsBoxWithin};
    ghost use Rattle.mapdefs.specs.declared.limits.TheConstants.{MAX_FINE_GLYPH_SIDE};

    /// A box within the limit.
    pub fn new(bounds: BitmapBox) -> Self
        requires { IsBoxWithin MAX_FINE_GLYPH_SIDE bounds }
        ensures { result ≡ bounds }
    {
        SmallBox { bounds }
    }

    /// The box.
    pub fn get(self) -> BitmapBox
        ensures { result ≡ self }
    {
        self.bounds
    }

    /// The greatest of its sides, and of the sizes of its offsets.
    pub fn side(self) -> u8
        ensures { result ≡ box_side self }
    {
        let SmallBox { bounds } = self;
        let sides = bounds.width.max(bounds.height);
        let right = bounds.xoff.unsigned_abs() as u8;
        let up = bounds.yoff.unsigned_abs() as u8;
        sides.max(right.max(up))
    }
}
