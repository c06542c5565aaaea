ghost use Rattle.std.specs.Prelude.{◌≡◌, ◌<◌, [], ◌∷◌, ◌-ℤ◌, unsigned_abs, length, None, Some, Err, IfOk, MatchOption};
ghost use Rattle.std.specs.List.{position_or_len, before_first, after_first};
ghost use Rattle.geom.specs.Range.{IsWithin};
ghost use Rattle.geom.specs.World.{IsExtent};
ghost use Rattle.crsaxes.specs.Axes.{is_comma, parts, box_of, box_of_parts, metres_across, bbox};
ghost use Rattle.crsaxes.specs.declared.crs.Crs.{Crs as System};
ghost use Rattle.crsaxes.specs.declared.fault.AxisFault.TheVariants.{NotFour};
ghost use Rattle.crsaxes.specs.declared.metres.TheConstants.{METRE_LIMIT};

use crate::crs::{Crs, crs_of};
use crate::fault::AxisFault;
use crate::metres::{axis_of, metres_of};
use geom::{Coordinate, Micro, WorldBox};

// The parts before and after the first comma; none without a comma.
fn split_comma(text: &str) -> Option<(&str, &str)>
    ensures { MatchOption result
        (position_or_len is_comma text.now ≡ length text.now)
        (λ p. (position_or_len is_comma text.now < length text.now)
        × (p.0.now ≡ before_first is_comma text.now) × (p.1.now ≡ after_first is_comma text.now)) }
{
    text.split_once(',')
}

// The first part of a text between commas, and the text of the others; none where there is one part.
fn split_part(text: &str) -> Option<(&str, &str)>
    ensures { MatchOption result (parts text.now ≡ text.now ∷ []) (λ p. parts text.now ≡ p.0.now ∷ parts p.1.now) }
{
    split_comma(text)
}

// The four parts of a text between commas, if it has four.
fn four_parts(text: &str) -> Option<(&str, &str, &str, &str)>
    ensures { MatchOption result
        ((crs : System) → (box_of_parts crs (parts text.now) ≡ Err NotFour) × (metres_across crs (parts text.now) ≡ None))
        (λ p. parts text.now ≡ p.0.now ∷ p.1.now ∷ p.2.now ∷ p.3.now ∷ []) }
{
    let (a, rest) = split_part(text)?;
    let (b, rest) = split_part(rest)?;
    let (c, d) = split_part(rest)?;
    match split_part(d) {
        Some(_) => None,
        None => Some((a, b, c, d)),
    }
}

// A corner of a box: two coordinates, in the axis order of a system.
#[derive(Clone, Copy)]
struct Corner {
    first: Coordinate,
    second: Coordinate,
}

// The box between two corners, the lower one with the least values of both axes.
fn box_of(crs: Crs, lower: Corner, upper: Corner) -> Result<WorldBox, AxisFault>
    ensures value { result ≡ box_of crs (Some lower.first) (Some lower.second) (Some upper.first) (Some upper.second) }
    ensures extent { IfOk result IsExtent }
{
    let (minx, miny, maxx, maxy) = match crs {
        Crs::Crs84 | Crs::Epsg3857 => (lower.first, lower.second, upper.first, upper.second),
        Crs::Epsg4326 => (lower.second, lower.first, upper.second, upper.first),
    };
    if minx < maxx && miny < maxy {
        Ok(WorldBox::new(minx.get(), miny.get(), maxx.get(), maxy.get()))
    } else {
        Err(AxisFault::Empty)
    }
}

impl Crs {
    /// The box that a text of four coordinates between commas means in the system: the least values of both
    /// axes, and then the greatest, in the system's axis order. Spaces are not trimmed.
    ///
    /// The first of these that fits is the fault: `NotFour`, where there are not four parts; `NotANumber`,
    /// where a part is no coordinate; `Empty`, where the box has no area. It takes no memory.
    pub fn bbox(self, text: &str) -> Result<WorldBox, AxisFault>
        ensures value { result ≡ box_of_parts self (parts text.now) }
        ensures extent { IfOk result IsExtent }
    {
        let Some((first, second, third, fourth)) = four_parts(text) else {
            return Err(AxisFault::NotFour);
        };
        match (
            axis_of(self, first),
            axis_of(self, second),
            axis_of(self, third),
            axis_of(self, fourth),
        ) {
            (Some(first), Some(second), Some(third), Some(fourth)) => {
                let lower = Corner { first, second };
                let upper = Corner {
                    first: third,
                    second: fourth,
                };
                box_of(self, lower, upper)
            }
            _ => Err(AxisFault::NotANumber),
        }
    }

    /// How wide the box that a text of four coordinates means is, in millionths of a metre, where the system is in
    /// metres: the difference of its eastings as they are read, before they count as degrees. `None` where the system
    /// is in degrees, or the text has no four coordinates. It takes no memory.
    pub fn metres_across(self, text: &str) -> Option<u64>
        ensures { result ≡ metres_across self (parts text.now) }
    {
        match self {
            Crs::Crs84 | Crs::Epsg4326 => None,
            Crs::Epsg3857 => {
                let (west, _, east, _) = four_parts(text)?;
                Some(distance(metres_of(west)?, metres_of(east)?))
            }
        }
    }
}

// The distance from one easting to another.
fn distance(west: Micro, east: Micro) -> u64
    requires west { IsWithin METRE_LIMIT west }
    requires east { IsWithin METRE_LIMIT east }
    ensures { result ≡ unsigned_abs (east -ℤ west) }
{
    (east.millionths() - west.millionths()).unsigned_abs()
}

/// The box that a text means in the system of a name (`Crs::bbox`). `UnknownCrs`, where no known system has
/// the name, is the first of the faults.
pub fn bbox(mercator: bool, crs: &str, text: &str) -> Result<WorldBox, AxisFault>
    ensures value { result ≡ bbox mercator crs.now text.now }
    ensures extent { IfOk result IsExtent }
{
    match crs_of(mercator, crs) {
        Some(crs) => crs.bbox(text),
        None => Err(AxisFault::UnknownCrs),
    }
}
