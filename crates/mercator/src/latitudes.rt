ghost use Rattle.std.specs.Prelude.{◌≡◌, ◌≤◌, ◌<◌, ◌+◌, ◌*◌, ◌^◌};
ghost use Rattle.geom.specs.Range.{IsBelow, IsWithin};
ghost use Rattle.mercator.specs.declared.ordinates.TheConstants.{GREATEST_LATITUDE};
ghost use Rattle.mercator.specs.declared.latitudes.TheConstants.{LAST_STEP};

use crate::ordinates::{GREATEST_LATITUDE, GREATEST_ORDINATE};
use crate::table::ORDINATES;

// The last step of the table from which a parabola begins.
const LAST_STEP: usize = 10_384;

/// About the southernmost latitude that has this ordinate or a greater one, in millionths of a degree. It is a guess, of
/// which no more is proved than its limits: the caller tests it.
pub fn about_latitude(ordinate: i64) -> i64
    requires { IsBelow (2 ^ 46) ordinate }
    ensures { IsWithin (GREATEST_LATITUDE + 1) result }
{
    let sixteenths = 16 * ordinate.unsigned_abs().min(GREATEST_ORDINATE);
    if ordinate > 0 {
        (size_of(sixteenths - 8) / 1_024) as i64 + 1
    } else {
        -((size_of(sixteenths + 8) / 1_024) as i64)
    }
}

// About the size of the latitude of an ordinate in sixteenths of a millionth, in 1,024ths of one: as on the parabola, of
// which a straight line falls short.
fn size_of(ordinate: u64) -> u64
    requires { ordinate < 2 ^ 35 }
    ensures { result ≤ 1024 * GREATEST_LATITUDE }
{
    let step = last_step(8_192, ordinate, 0);
    let first = u64::from(ORDINATES[step]);
    let second = u64::from(ORDINATES[step + 1]);
    let third = u64::from(ORDINATES[step + 2]);
    let rise = second.saturating_sub(first).max(1);
    let bend = third.saturating_sub(second).saturating_sub(rise).min(4_095);
    let straight = (8_388_608 * ordinate.saturating_sub(first) / rise).min(8_388_608);
    let bow = (straight * (8_388_608 - straight) / 65_536).min(1 << 28);
    let short = (bow * bend / (256 * rise)).min(8_388_608);
    (8_388_608 * step as u64 + straight + short).min(1_024 * GREATEST_LATITUDE)
}

// About the last step of the table whose ordinate isn't greater, in strides of which each is half as long as the one
// before it.
fn last_step(stride: usize, ordinate: u64, step: usize) -> usize
    requires stride { stride ≤ 2 ^ 13 }
    requires step { step ≤ LAST_STEP }
    ensures { result ≤ LAST_STEP }
{
    if stride == 0 {
        return step;
    }
    let next = step + stride;
    if next <= LAST_STEP && u64::from(ORDINATES[next]) <= ordinate {
        last_step(stride / 2, ordinate, next)
    } else {
        last_step(stride / 2, ordinate, step)
    }
}
