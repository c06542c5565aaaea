ghost use Rattle.std.specs.Prelude.{◌≡◌, ◌≤◌, ◌*◌, pos, ◌≤ℤ◌, IfSome};
ghost use Rattle.geom.specs.Decimal.{nearest};
ghost use Rattle.geom.specs.Range.{IsWithin};
ghost use Rattle.crsaxes.specs.Axes.{axis_of, equator_of, metres_of};
ghost use Rattle.crsaxes.specs.Metres.{metres_down, metres_up};
ghost use Rattle.crsaxes.specs.declared.metres.TheConstants.{METRE_LIMIT};

use crate::crs::Crs;
use geom::{Coordinate, Micro};

/// The greatest size of an easting or a northing: 1,000 degrees of the equator in millionths of a metre, rounded up.
pub const METRE_LIMIT: u64 = 111_319_490_793_274;

/// The value of an axis of a system that a text means, in millionths of a degree.
pub fn axis_of(crs: Crs, text: &str) -> Option<Coordinate>
    ensures { result ≡ axis_of crs text.now }
{
    match crs {
        Crs::Crs84 | Crs::Epsg4326 => Coordinate::read(text),
        Crs::Epsg3857 => match metres_of(text) {
            Some(metres) => Some(equator_of(metres)),
            None => None,
        },
    }
}

/// An easting or a northing that a text means, in millionths of a metre.
pub fn metres_of(text: &str) -> Option<Micro>
    ensures value { result ≡ metres_of text.now }
    ensures within { IfSome result (IsWithin METRE_LIMIT) }
{
    match Micro::read(text.as_bytes(), METRE_LIMIT) {
        Ok(metres) => Some(metres),
        Err(_) => None,
    }
}

// A length on the equator, in millionths of a metre, as millionths of a degree, rounded to the nearest.
fn equator_of(metres: Micro) -> Coordinate
    requires { IsWithin METRE_LIMIT metres }
    ensures { result ≡ equator_of metres }
{
    let number = metres.millionths();
    let size = degrees_of(number.unsigned_abs());
    Coordinate::new(Micro::new(if number < 0 { -size } else { size }))
}

// The same of a size.
#[tactic(auto, unfolding(geom::specs::Decimal::nearest))]
fn degrees_of(size: u64) -> i64
    requires { size ≤ METRE_LIMIT }
    ensures value { result ≡ pos (nearest (45000000000 * size) 5009377085697311) }
    ensures least { pos 0 ≤ℤ result }
    ensures most { result ≤ℤ pos 1000000000 }
{
    let product = 45_000_000_000 * u128::from(size);
    ((2 * product + 5_009_377_085_697_311) / 10_018_754_171_394_622) as i64
}

/// A longitude or an ordinate in millionths of a metre, rounded down.
#[tactic(auto, unfolding(crate::specs::Metres::metres_down))]
pub fn metres_down(degrees: Coordinate) -> Micro
    ensures value { result ≡ metres_down degrees }
    ensures within { IsWithin METRE_LIMIT result }
{
    let product = i128::from(degrees.get().millionths()) * 5_009_377_085_697_311;
    Micro::new(product.div_euclid(45_000_000_000) as i64)
}

/// A longitude or an ordinate in millionths of a metre, rounded up.
pub fn metres_up(degrees: Coordinate) -> Micro
    ensures { result ≡ metres_up degrees }
{
    let opposite = Coordinate::new(Micro::new(-degrees.get().millionths()));
    Micro::new(-metres_down(opposite).millionths())
}
