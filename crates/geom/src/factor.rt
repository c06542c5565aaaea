ghost use Rattle.std.specs.Prelude.{◌≡◌, ◌≤◌, ◌<◌, ◌*◌, ◌^◌};
ghost use Rattle.geom.specs.Factor.{factor_by};
ghost use Rattle.geom.specs.declared.factor.TheConstants.{MAX_FACTOR};

use std::marker::Model;

/// The most pixels of a fine picture that a map's pixel is, in both directions.
pub const MAX_FACTOR: u8 = 4;

/// How many times as fine a picture is in both directions: 1 to `MAX_FACTOR`.
#[derive(Clone, Copy)]
pub struct Factor {
    times: u8,
}

impl Model for Factor {
    ghost use Rattle.std.specs.Prelude.{ℕ};
    ghost use Rattle.geom.specs.Factor.{IsFactor};

    ghost Value = { ℕ };

    ghost view = { λ f. f.times };

    ghost invariant = { λ f. IsFactor f.times };

    ghost inverse = { λ n. record { times = n } };
}

impl Factor {
    ghost use Rattle.geom.specs.Factor.{IsFactor};

    /// That factor, if a picture may have it.
    pub fn new(times: u8) -> Option<Self>
        ensures { result ≡ factor_by times }
    {
        if times == 0 || times > MAX_FACTOR {
            return None;
        }
        Some(Factor { times })
    }

    /// That factor, 1 to `MAX_FACTOR`.
    pub fn of(times: u8) -> Self
        requires some { 1 ≤ times }
        requires most { times ≤ MAX_FACTOR }
        ensures { result ≡ times }
    {
        Factor { times }
    }

    /// How many pixels of the fine picture so many pixels of the map are, on one side.
    pub fn fine(self, pixels: u16) -> u16
        requires { pixels < 2 ^ 14 }
        ensures value { result ≡ self * pixels }
        ensures most { result ≤ MAX_FACTOR * pixels }
    {
        u16::from(self.times) * pixels
    }

    /// How many times as fine.
    pub fn times(self) -> u8
        ensures value { result ≡ self }
        ensures limits { IsFactor result }
    {
        self.times
    }
}
