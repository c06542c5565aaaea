ghost use Rattle.std.specs.Prelude.{◌≡◌, ◌^◌};
ghost use Rattle.geom.specs.Range.{IsBelow};
ghost use Rattle.strokes.specs.Short.{are_abreast, are_close, are_neighbours};

use geom::Pixel;

/// Whether two pixels lie in one column or in one row, and are at most so many apart.
pub fn are_neighbours(apart: u16, a: Pixel, b: Pixel) -> bool
    ensures { result ≡ are_neighbours apart a b }
{
    are_in_column(apart, a, b) || are_in_row(apart, a, b)
}

// Whether they lie in one column, and are at most so many apart.
fn are_in_column(apart: u16, a: Pixel, b: Pixel) -> bool
    ensures { result ≡ are_abreast apart a.i b.i a.j b.j }
{
    are_close(0, a.i(), b.i()) && are_close(apart, a.j(), b.j())
}

// The same of one row.
fn are_in_row(apart: u16, a: Pixel, b: Pixel) -> bool
    ensures { result ≡ are_abreast apart a.j b.j a.i b.i }
{
    are_close(0, a.j(), b.j()) && are_close(apart, a.i(), b.i())
}

// Whether two columns, or two rows, are at most so many apart.
fn are_close(apart: u16, a: i64, b: i64) -> bool
    requires a { IsBelow (2 ^ 44) a }
    requires b { IsBelow (2 ^ 44) b }
    ensures { result ≡ are_close apart a b }
{
    a - i64::from(apart) <= b && b <= a + i64::from(apart)
}
