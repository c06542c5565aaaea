ghost use Rattle.std.specs.Prelude.{◌≡◌, ℕ, ℤ, ◌<◌, ◌≤◌, ◌≤ℤ◌, ◌*◌, ◌^◌, ◌+ℤ◌, ◌*ℤ◌, int_le, true, length, pos, slice_index_or, IfOk};
ghost use Rattle.geom.specs.Range.{IsBelow};
ghost use Rattle.geom.specs.Device.{pixel_centre};
ghost use Rattle.geom.specs.declared.side.TheConstants.{MAX_PICTURE_SIDE};
ghost use Rattle.mapdefs.specs.declared.limits.TheConstants.{MAX_FINE_WIDTH};
ghost use Rattle.scanfill.specs.Runs.{has_column};
ghost use Rattle.strokes.specs.Chord.{ArePlain, NothingBetween};
ghost use Rattle.strokes.specs.Round.{is_round, square};

use crate::number::{difference, product};
use crate::root::{half_chord, limit, root, square_of_half};
use crate::round_columns::centres_between;
use geom::{Device, row_centre};
use scanfill::Span;
use std::alloc::{AllocError, Global};
use std::marker::Model;

/// The chords of a disc of a width: how far it reaches to both sides in a row, by how far the row lies from its centre. So
/// no root is computed for a vertex.
#[derive(Drop)]
pub struct Chords {
    width: u8,
    halves: Vec<i64>,
    // By the square of a segment's length whether it is known to be plain.
    plain: Vec<bool>,
}

impl Model for Chords {
    ghost use Rattle.std.specs.Prelude.{ℕ};
    ghost use Rattle.strokes.specs.Chord.{AreChords, ArePlain};

    ghost Value = { ℕ };

    ghost view = { λ c. c.width };

    ghost invariant = { λ c. (AreChords c.width c.halves.items) × (ArePlain c.width c.plain.items) };
}

impl Chords {
    /// The chords of a disc of a width. The width is 1 to `MAX_FINE_WIDTH`.
    pub fn new(alloc: Global, width: u8) -> Result<Self, AllocError>
        requires some { 1 ≤ width }
        requires most { width ≤ MAX_FINE_WIDTH }
        ensures { IfOk result (λ chords. chords ≡ width) }
    {
        let mut halves = Vec::new(alloc);
        let past = 8 * u16::from(width) + 1;
        for down in 0..past {
            halves.push(half_chord(width, down))?;
        }
        let plain = plain_lengths(alloc, width)?;
        Ok(Chords {
            width,
            halves,
            plain,
        })
    }

    /// The width.
    pub fn width(&self) -> u8
        ensures value { result ≡ self.now }
        ensures some { 1 ≤ result }
        ensures most { result ≤ MAX_FINE_WIDTH }
    {
        self.width
    }

    /// Whether a segment of which this is the square of the length is known to be *plain*: each point that it covers lies in
    /// one of the discs round its ends.
    pub fn is_plain(&self, length: i128) -> bool
        requires { pos 0 ≤ℤ length }
        ensures { result ≡ true → NothingBetween self.now length }
    {
        length < self.plain.len() as i128 && self.plain[length as usize]
    }

    /// The columns of a row, of so many, whose centres lie in the disc round a point.
    pub fn columns(&self, point: Device, row: u16, end: u16) -> Span
        requires { row < MAX_PICTURE_SIDE }
        ensures all { (i : ℕ) → i < end → has_column result i ≡ is_round self.now point (pixel_centre (pos i) (pos row)) }
        ensures within { result.to ≤ end }
    {
        let down = difference(row_centre(row), point.y()).unsigned_abs() as usize;
        let halves = self.halves.as_slice();
        if down >= halves.len() {
            return Span { from: 0, to: 0 };
        }
        let (x, half) = (point.x(), half_at(halves, down));
        centres_between(x - half, x + half, end)
    }
}

// The table of plain segments of a width, of those that are shorter than half a pixel.
fn plain_lengths(alloc: Global, width: u8) -> Result<Vec<bool>, AllocError>
    requires { width ≤ MAX_FINE_WIDTH }
    ensures { IfOk result (λ plain. ArePlain width plain.items) }
{
    let mut plain = Vec::new(alloc);
    for length in 0..64 {
        plain.push(is_plain(width, length))?;
    }
    Ok(plain)
}

// Whether no number lies between the discs of a segment, of which this is the square of the length.
fn is_plain(width: u8, length: u16) -> bool
    requires width { width ≤ MAX_FINE_WIDTH }
    requires length { length < 64 }
    ensures { result ≡ true → NothingBetween width (pos length) }
{
    let limit = limit(square_of_half(width), i128::from(length));
    has_none_between(limit, i64::from(length))
}

// Whether the square of each number, where it is at most a limit, is so by a fourth of the square of a length.
fn has_none_between(limit: i128, length: i64) -> bool
    requires least { pos 0 ≤ℤ limit }
    requires range { IsBelow (2 ^ 120) limit }
    requires length { IsBelow (2 ^ 10) length }
    ensures { result ≡ true → (c : ℤ) → square c ≤ℤ limit → (pos 4 *ℤ square c +ℤ square length) ≤ℤ (pos 4 *ℤ limit) }
{
    let root = root(limit);
    root < 1_048_576 && is_apart(root, length, limit)
}

// Whether that is so of a root.
fn is_apart(root: i64, length: i64, limit: i128) -> bool
    requires root { IsBelow (2 ^ 20) root }
    requires length { IsBelow (2 ^ 10) length }
    requires limit { IsBelow (2 ^ 120) limit }
    ensures { result ≡ int_le (pos 4 *ℤ square root +ℤ square length) (pos 4 *ℤ limit) }
{
    sum(four(product(root, root)), product(length, length)) <= four(limit)
}

// The sum of two numbers.
fn sum(a: i128, b: i128) -> i128
    requires a { IsBelow (2 ^ 122) a }
    requires b { IsBelow (2 ^ 96) b }
    ensures value { result ≡ a +ℤ b }
    ensures range { IsBelow (2 ^ 123) result }
{
    a + b
}

// Four times a number.
fn four(limit: i128) -> i128
    requires { IsBelow (2 ^ 120) limit }
    ensures value { result ≡ pos 4 *ℤ limit }
    ensures range { IsBelow (2 ^ 122) result }
{
    4 * limit
}

// The half chord at an index.
fn half_at(halves: &[i64], down: usize) -> i64
    requires { down < length halves.now }
    ensures { result ≡ slice_index_or halves.now down (pos 0) }
{
    halves[down]
}
