ghost use Rattle.std.specs.Prelude.{◌≡◌, ℕ, ◌<◌, ◌≤◌, ◌^◌, ◌*◌, ◌&&◌, pos, neg_ℤ, ◌+ℤ◌, ◌-ℤ◌, ◌*ℤ◌, int_le};
ghost use Rattle.std.specs.Int.{int_div_euclid};
ghost use Rattle.geom.specs.Device.{centre, pixel_centre};
ghost use Rattle.geom.specs.Range.{IsBelow};
ghost use Rattle.geom.specs.declared.side.TheConstants.{MAX_PICTURE_SIDE};
ghost use Rattle.mapdefs.specs.declared.limits.TheConstants.{MAX_FINE_WIDTH};
ghost use Rattle.scanfill.specs.Runs.{has_column};
ghost use Rattle.strokes.specs.Round.{apart, is_about, is_abreast, is_round, joined};

use crate::columns::kept;
use crate::distance::{across, along, apart, minus_wide};
use crate::number::{difference, opposite, product, step};
use crate::root::{half, short_root, square_of_half};
use geom::{Device, row_centre};
use scanfill::Span;

/// The columns from that of a point on whose points of the same row lie between the perpendiculars.
pub fn abreast_columns(from: Device, to: Device, first: Device, span: Span) -> Span
    ensures all { (i : ℕ) → has_column result i ≡
        (has_column span i && is_abreast (record { from = from; to = to }) (record { x = first.x +ℤ pos 16 *ℤ pos i; y = first.y })) }
    ensures within { result.to ≤ span.to }
{
    let along = along(from, to, first);
    let left = minus_wide(apart(from, to), along);
    let across = step(across(from, to));
    kept(kept(span, across, along - 1), opposite(across), left - 1)
}

/// The columns in which a number is at most the reach, and its opposite too. It is `first` in column 0, and falls by `step`.
pub fn close_columns(span: Span, first: i128, step: i64, reach: i64) -> Span
    requires first { IsBelow (2 ^ 97) first }
    requires step { IsBelow (2 ^ 52) step }
    requires reach { IsBelow (2 ^ 61) reach }
    ensures all { (i : ℕ) → has_column result i ≡
        (has_column span i && (int_le (neg_ℤ reach) (first -ℤ pos i *ℤ step) && int_le (first -ℤ pos i *ℤ step) reach)) }
    ensures within { result.to ≤ span.to }
{
    let reach = i128::from(reach);
    kept(
        kept(span, opposite(step), reach + first),
        step,
        reach - first,
    )
}

/// The columns of a row, of so many, whose centres lie at most half a width away from a point.
pub fn disc_columns(width: u8, point: Device, row: u16, end: u16) -> Span
    requires width { width ≤ MAX_FINE_WIDTH }
    requires row { row < MAX_PICTURE_SIDE }
    ensures all { (i : ℕ) → i < end → has_column result i ≡ is_round width point (pixel_centre (pos i) (pos row)) }
    ensures within { result.to ≤ end }
{
    columns_within(square_of_half(width), point, row, end)
}

/// The columns of a row, of so many, whose centres are so near to a point that the square of their distance is at most a limit.
pub fn columns_within(limit: i64, point: Device, row: u16, end: u16) -> Span
    requires limit { IsBelow (2 ^ 27) limit }
    requires row { row < MAX_PICTURE_SIDE }
    ensures all { (i : ℕ) → i < end → has_column result i ≡ int_le (apart point (pixel_centre (pos i) (pos row))) limit }
    ensures within { result.to ≤ end }
{
    let down = difference(row_centre(row), point.y());
    let left = i128::from(limit) - product(down, down);
    if left < 0 {
        return Span { from: 0, to: 0 };
    }
    let (x, half) = (point.x(), short_root(left));
    centres_between(x - half, x + half, end)
}

/// The columns, or the rows, of so many, whose centres lie from one number to another.
pub fn centres_between(least: i64, most: i64, end: u16) -> Span
    requires least { IsBelow (2 ^ 62) least }
    requires most { IsBelow (2 ^ 62) most }
    ensures all { (i : ℕ) → i < end → has_column result i ≡ (int_le least (centre (pos i)) && int_le (centre (pos i)) most) }
    ensures within { result.to ≤ end }
{
    Span::clipped(sixteenth(least, 7), sixteenth(most, 8), end)
}

// A sixteenth of the sum of two numbers, rounded down. The first is lifted above 0, so that dividing is one shift.
fn sixteenth(z: i64, more: u64) -> i64
    requires z { IsBelow (2 ^ 62) z }
    requires more { more ≤ 8 }
    ensures value { result ≡ int_div_euclid (z +ℤ pos more) (pos 16) }
    ensures range { IsBelow (2 ^ 62) result }
{
    ((lifted(z) + more) / 16) as i64 - 288_230_376_151_711_744
}

// A number, lifted above 0 by 2^62.
fn lifted(z: i64) -> u64
    requires { IsBelow (2 ^ 62) z }
    ensures value { pos result ≡ z +ℤ pos (2 ^ 62) }
    ensures range { result < 2 ^ 63 }
{
    (z + 4_611_686_018_427_387_904) as u64
}

/// The columns, or the rows, of so many, whose centres lie at most half a width before the lesser of two numbers and after the
/// greater one.
pub fn centres_about(a: i64, b: i64, width: u8, end: u16) -> Span
    requires a { IsBelow (2 ^ 47) a }
    requires b { IsBelow (2 ^ 47) b }
    requires width { width ≤ MAX_FINE_WIDTH }
    ensures all { (i : ℕ) → i < end → has_column result i ≡ is_about width a b (centre (pos i)) }
    ensures within { result.to ≤ end }
{
    let half = half(width);
    centres_between(a.min(b) - half, a.max(b) + half, end)
}

/// The columns of two spans, and those between them.
pub fn joined(a: Span, b: Span) -> Span
    ensures { result ≡ joined a b }
{
    if a.to <= a.from {
        return b;
    }
    if b.to <= b.from {
        return a;
    }
    Span {
        from: a.from.min(b.from),
        to: a.to.max(b.to),
    }
}
