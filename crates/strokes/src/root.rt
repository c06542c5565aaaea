ghost use Rattle.std.specs.Prelude.{◌≡◌, ◌≤◌, ◌*◌, ◌^◌, pos, ◌-ℤ◌, ◌*ℤ◌, ◌≤ℤ◌};
ghost use Rattle.geom.specs.Range.{IsBelow};
ghost use Rattle.mapdefs.specs.declared.limits.TheConstants.{MAX_FINE_WIDTH};
ghost use Rattle.strokes.specs.Round.{IsRoot, square, square_of_half};

use crate::number::product;

/// The square root, rounded down. Of a small number it is found in words of 32 bits, since tables have many of these.
pub fn root(n: i128) -> i64
    requires least { pos 0 ≤ℤ n }
    requires range { IsBelow (2 ^ 120) n }
    ensures root { IsRoot n result }
    ensures range { IsBelow (2 ^ 61) result }
{
    if n < 134_217_728 {
        return short_root(n);
    }
    n.unsigned_abs().isqrt() as i64
}

/// The square root of a number below 2^27, rounded down: by words of 32 bits, since it is taken for each row of a disc.
pub fn short_root(n: i128) -> i64
    requires least { pos 0 ≤ℤ n }
    requires range { IsBelow (2 ^ 27) n }
    ensures root { IsRoot n result }
    ensures range { IsBelow (2 ^ 61) result }
{
    i64::from((n as u32).isqrt())
}

/// Half a width, in sixteenths of a pixel.
pub fn half(width: u8) -> i64
    requires { width ≤ MAX_FINE_WIDTH }
    ensures value { result ≡ pos (8 * width) }
    ensures range { IsBelow (2 ^ 11) result }
{
    8 * i64::from(width)
}

/// The square of half a width, in sixteenths of a pixel.
pub fn square_of_half(width: u8) -> i64
    requires { width ≤ MAX_FINE_WIDTH }
    ensures value { result ≡ square_of_half width }
    ensures range { IsBelow (2 ^ 21) result }
{
    let half = 8 * i64::from(width);
    half * half
}

/// The product of the square of half a width and of the square of a length.
pub fn limit(half: i64, length: i128) -> i128
    requires half { IsBelow (2 ^ 21) half }
    requires some { pos 0 ≤ℤ half }
    requires length { IsBelow (2 ^ 97) length }
    requires least { pos 0 ≤ℤ length }
    ensures value { result ≡ half *ℤ length }
    ensures least { pos 0 ≤ℤ result }
    ensures range { IsBelow (2 ^ 120) result }
{
    i128::from(half) * length
}

/// Half the chord of a disc that lies so many sixteenths of a pixel from its centre, at most half its width.
pub fn half_chord(width: u8, down: u16) -> i64
    requires width { width ≤ MAX_FINE_WIDTH }
    requires down { down ≤ 8 * width }
    ensures root { IsRoot (square_of_half width -ℤ square (pos down)) result }
    ensures range { IsBelow (2 ^ 61) result }
{
    let down = i64::from(down);
    root(i128::from(square_of_half(width)) - product(down, down))
}
