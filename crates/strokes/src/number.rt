ghost use Rattle.std.specs.Prelude.{◌≡◌, ◌≤◌, ◌*◌, ◌^◌, pos, ◌+ℤ◌, ◌-ℤ◌, ◌*ℤ◌, neg_ℤ};
ghost use Rattle.geom.specs.Range.{IsBelow};
ghost use Rattle.mapdefs.specs.declared.limits.TheConstants.{MAX_FINE_WIDTH};

/// The difference of two coordinates.
pub fn difference(a: i64, b: i64) -> i64
    requires a { IsBelow (2 ^ 47) a }
    requires b { IsBelow (2 ^ 47) b }
    ensures value { result ≡ a -ℤ b }
    ensures range { IsBelow (2 ^ 48) result }
{
    a - b
}

/// The product of two differences.
pub fn product(a: i64, b: i64) -> i128
    requires a { IsBelow (2 ^ 48) a }
    requires b { IsBelow (2 ^ 48) b }
    ensures value { result ≡ a *ℤ b }
    ensures range { IsBelow (2 ^ 96) result }
{
    i128::from(a) * i128::from(b)
}

/// The difference of two products.
pub fn minus(a: i128, b: i128) -> i128
    requires a { IsBelow (2 ^ 96) a }
    requires b { IsBelow (2 ^ 96) b }
    ensures value { result ≡ a -ℤ b }
    ensures range { IsBelow (2 ^ 97) result }
{
    a - b
}

/// Twice the difference of two products.
pub fn twice(a: i128) -> i128
    requires { IsBelow (2 ^ 97) a }
    ensures value { result ≡ pos 2 *ℤ a }
    ensures range { IsBelow (2 ^ 98) result }
{
    2 * a
}

/// Sixteen times a width, times a rise.
pub fn reach(width: u8, rise: i64) -> i64
    requires width { width ≤ MAX_FINE_WIDTH }
    requires rise { IsBelow (2 ^ 48) rise }
    ensures value { result ≡ pos (16 * width) *ℤ rise }
    ensures range { IsBelow (2 ^ 59) result }
{
    i64::from(16 * u16::from(width)) * rise
}

/// How far it is from column to column, in sixteenths of a pixel times a difference.
pub fn step(a: i64) -> i64
    requires { IsBelow (2 ^ 48) a }
    ensures value { result ≡ pos 16 *ℤ a }
    ensures range { IsBelow (2 ^ 52) result }
{
    16 * a
}

/// The opposite of a step.
pub fn opposite(a: i64) -> i64
    requires { IsBelow (2 ^ 52) a }
    ensures value { result ≡ neg_ℤ a }
    ensures range { IsBelow (2 ^ 52) result }
{
    -a
}

/// A coordinate less half a width.
pub fn less(x: i64, width: u8) -> i64
    requires x { IsBelow (2 ^ 47) x }
    requires width { width ≤ MAX_FINE_WIDTH }
    ensures value { result ≡ x -ℤ pos (8 * width) }
    ensures range { IsBelow (2 ^ 48) result }
{
    x - 8 * i64::from(width)
}

/// A coordinate plus half a width.
pub fn more(x: i64, width: u8) -> i64
    requires x { IsBelow (2 ^ 47) x }
    requires width { width ≤ MAX_FINE_WIDTH }
    ensures value { result ≡ x +ℤ pos (8 * width) }
    ensures range { IsBelow (2 ^ 48) result }
{
    x + 8 * i64::from(width)
}
