ghost use Rattle.std.specs.Prelude.{◌≡◌};

use crate::{COORDINATE_LIMIT, Micro};
use std::marker::Model;

/// The least coordinate, in millionths of a degree.
pub const LEAST_COORDINATE: i64 = -(COORDINATE_LIMIT as i64);

/// The greatest coordinate, in millionths of a degree.
pub const GREATEST_COORDINATE: i64 = COORDINATE_LIMIT as i64;

/// A coordinate: a longitude or a latitude of at most 1,000 degrees in size.
#[derive(Clone, Copy, PartialEq, Eq, PartialOrd, Ord)]
pub struct Coordinate {
    number: Micro,
}

impl Model for Coordinate {
    ghost use Rattle.std.specs.Prelude.{ℤ};
    ghost use Rattle.geom.specs.World.{IsCoordinate};

    ghost Value = { ℤ };

    ghost view = { λ c. c.number };

    ghost invariant = { λ c. IsCoordinate c.number };

    ghost inverse = { λ z. record { number = z } };
}

impl Coordinate {
    ghost use Rattle.geom.specs.Number.{coordinate_of};
    ghost use Rattle.geom.specs.World.{IsCoordinate};

    /// The coordinate of that many millionths of a degree.
    pub fn new(number: Micro) -> Self
        requires { IsCoordinate number }
        ensures { result ≡ number }
    {
        Coordinate { number }
    }

    /// The coordinate that a decimal text means, if it is within 1,000 degrees.
    pub fn read(text: &str) -> Option<Self>
        ensures { result ≡ coordinate_of text.now }
    {
        match Micro::read(text.as_bytes(), COORDINATE_LIMIT) {
            Ok(number) => Some(Coordinate { number }),
            Err(_) => None,
        }
    }

    /// The millionths of a degree.
    pub fn get(self) -> Micro
        ensures value { result ≡ self }
        ensures limits { IsCoordinate result }
    {
        self.number
    }
}
