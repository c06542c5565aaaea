ghost use Rattle.std.specs.Prelude.{◌≡◌, ◌^◌, ◌↔◌, IsTrue};
ghost use Rattle.geom.specs.PxBox.{HasSidesBelow, IsInside, IsUpTo, Meets, Overlap, grown};

use std::marker::Model;

/// A box of pixels: the columns from `left` to before `right`, the rows from `top` to before
/// `bottom`. It may lie off the picture, and has no pixel where `right` is not above `left` or
/// `bottom` not above `top`.
#[derive(Clone, Copy, Debug)]
pub struct PxBox {
    left: i64,
    top: i64,
    right: i64,
    bottom: i64,
}

impl Model for PxBox {
    ghost use Rattle.geom.specs.PxBox.{PixelBoxValue};

    ghost Value = { PixelBoxValue };

    ghost view = { λ b. record { left = b.left; top = b.top; right = b.right; bottom = b.bottom } };

    ghost inverse = { λ b. record { left = b.left; top = b.top; right = b.right; bottom = b.bottom } };
}

impl PxBox {
    /// The box of its left, top, right and bottom side.
    pub fn new(left: i64, top: i64, right: i64, bottom: i64) -> Self
        ensures { result ≡ record { left = left; top = top; right = right; bottom = bottom } }
    {
        PxBox {
            left,
            top,
            right,
            bottom,
        }
    }

    /// The first column.
    pub fn left(self) -> i64
        ensures { result ≡ self.left }
    {
        self.left
    }

    /// The first row.
    pub fn top(self) -> i64
        ensures { result ≡ self.top }
    {
        self.top
    }

    /// The column after the last one.
    pub fn right(self) -> i64
        ensures { result ≡ self.right }
    {
        self.right
    }

    /// The row after the last one.
    pub fn bottom(self) -> i64
        ensures { result ≡ self.bottom }
    {
        self.bottom
    }

    /// Whether some pixel lies in both boxes.
    pub fn meets(self, other: PxBox) -> bool
        ensures { IsTrue result ↔ Meets self other }
    {
        overlap(self.left, self.right, other.left, other.right)
            && overlap(self.top, self.bottom, other.top, other.bottom)
    }

    /// The box with `n` more pixels on each side.
    pub fn grown(self, n: u32) -> PxBox
        requires { HasSidesBelow (2 ^ 40) self }
        ensures { result ≡ grown self n }
    {
        let n = i64::from(n);
        PxBox {
            left: self.left - n,
            top: self.top - n,
            right: self.right + n,
            bottom: self.bottom + n,
        }
    }

    /// Whether all four sides lie within a picture of that width and height, ends included.
    pub fn inside(self, width: u16, height: u16) -> bool
        ensures { IsTrue result ↔ IsInside self width height }
    {
        is_within(self.left, self.right, width) && is_within(self.top, self.bottom, height)
    }
}

// Whether some column or row lies in both ranges, from a start to before an end.
fn overlap(start: i64, end: i64, other_start: i64, other_end: i64) -> bool
    ensures { IsTrue result ↔ Overlap start end other_start other_end }
{
    start.max(other_start) < end.min(other_end)
}

// Whether a box's first column or row and the one after its last lie on a side of the picture, ends included.
fn is_within(start: i64, end: i64, side: u16) -> bool
    ensures { IsTrue result ↔ (IsUpTo side start × IsUpTo side end) }
{
    let side = i64::from(side);
    0 <= start && start <= side && 0 <= end && end <= side
}
