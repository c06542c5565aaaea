ghost use Rattle.std.specs.Prelude.{◌≡◌, ◌^◌, ◌<◌, ◌++◌, IfOk, OnErr, OnOk};
ghost use Rattle.geom.specs.Decimal.{limited};
ghost use Rattle.geom.specs.Range.{IsWithin};

use crate::decimal::{nearest, read_decimal, split_sign, with_sign};
use crate::writing::write_signed;
use std::alloc::AllocError;
use std::marker::Model;
use thiserror::Error;

/// The greatest size of a coordinate: 1,000 degrees, in millionths.
pub const COORDINATE_LIMIT: u64 = 1_000_000_000;

/// The greatest size of any other number, in millionths.
pub const NUMBER_LIMIT: u64 = 1_000_000_000_000_000_000;

/// Why a text is no number of millionths.
#[derive(Clone, Copy, Debug, Error)]
pub enum NumberFault {
    #[error("not a decimal number")]
    NotANumber,
    #[error("a number beyond the limit")]
    TooLarge,
}

/// A number in millionths: of a degree where it is a coordinate, else of one.
#[derive(Clone, Copy, Debug, PartialEq, Eq, PartialOrd, Ord)]
pub struct Micro {
    millionths: i64,
}

impl Model for Micro {
    ghost use Rattle.std.specs.Prelude.{ℤ};

    ghost Value = { ℤ };

    ghost view = { λ m. m.millionths };

    ghost inverse = { λ z. record { millionths = z } };
}

// A size with its sign, if it is within the limit.
fn limited(limit: u64, is_negative: bool, size: u64) -> Result<Micro, NumberFault>
    requires { limit < 2 ^ 63 }
    ensures value { result ≡ limited limit is_negative size }
    ensures within { IfOk result (λ number. IsWithin limit number) }
{
    if size > limit {
        return Err(NumberFault::TooLarge);
    }
    Ok(Micro {
        millionths: with_sign(is_negative, u128::from(size)),
    })
}

impl Micro {
    ghost use Rattle.geom.specs.Decimal.{reading, whole_of};
    ghost use Rattle.geom.specs.Number.{count_of};
    ghost use Rattle.geom.specs.Written.{written};

    /// That many millionths.
    pub const fn new(millionths: i64) -> Self
        ensures { result ≡ millionths }
    {
        Micro { millionths }
    }

    /// How many millionths it is.
    pub const fn millionths(self) -> i64
        ensures { result ≡ self }
    {
        self.millionths
    }

    /// The number that a decimal text means, rounded to the nearest millionth, a half away from zero:
    /// a sign or none, digits, perhaps a point and digits, with at least one digit, and perhaps `e` or
    /// `E`, a sign or none, and digits. `limit` is the greatest size that is accepted, in millionths.
    ///
    /// `NotANumber` where the text is no such number, else `TooLarge` where the size is above `limit`.
    /// It reads each byte a few times, of a text of any length, and takes no memory.
    pub fn read(text: &[u8], limit: u64) -> Result<Self, NumberFault>
        requires { limit < 2 ^ 63 }
        ensures value { result ≡ reading text.now limit }
        ensures within { IfOk result (λ number. IsWithin limit number) }
    {
        let (is_negative, rest) = split_sign(text);
        match read_decimal(rest) {
            Some(size) => limited(limit, is_negative, size),
            None => Err(NumberFault::NotANumber),
        }
    }

    /// Adds the number as a text: a minus below 0, its whole part, a point and six digits. Of the texts of
    /// that form without a needless zero before the point it is the only one that means the number
    /// (`laws::one_text`). Where memory is refused, nothing is added.
    pub fn write(self, out: &mut Vec<u8>) -> Result<(), AllocError>
        ensures ok { OnOk result (out.new.items ≡ out.old.items ++ written self) }
        ensures err { OnErr result (out.new.items ≡ out.old.items) }
    {
        write_signed(out, self.millionths < 0, self.millionths.unsigned_abs())
    }

    /// The nearest whole number, a half away from zero.
    pub fn whole(self) -> i64
        ensures { result ≡ whole_of self }
    {
        let size = nearest(u128::from(self.millionths.unsigned_abs()), 1_000_000);
        with_sign(self.millionths < 0, size)
    }

    /// The count that a decimal text means: its number, rounded to the nearest whole one, if it is within
    /// `NUMBER_LIMIT`.
    pub fn read_count(text: &[u8]) -> Option<i64>
        ensures { result ≡ count_of text.now }
    {
        Some(Micro::read(text, NUMBER_LIMIT).ok()?.whole())
    }
}
