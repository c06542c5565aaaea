ghost use Rattle.std.specs.Prelude.{◌≡◌, ◌≤◌, ◌^◌};
ghost use Rattle.geom.specs.Range.{IsBelow, IsWithin};
ghost use Rattle.viewport.specs.View.{height_of, north_of, south_of, steepest};

use geom::Coordinate;

/// What a view measures from south to north.
#[derive(Clone, Copy, PartialEq, Eq)]
pub enum Heights {
    /// Millionths of a degree of latitude.
    Latitudes,
    /// Ordinates of web mercator, in millionths of a degree of the equator.
    Mercator,
}

impl Heights {
    /// How far north a latitude lies.
    #[tactic(auto, unfolding(crate::specs::View::height_of))]
    pub fn of(self, latitude: Coordinate) -> i64
        ensures value { result ≡ height_of self latitude }
        ensures range { IsWithin 1100000000 result }
    {
        match self {
            Heights::Latitudes => latitude.get().millionths(),
            Heights::Mercator => mercator::ordinate(latitude),
        }
    }

    /// A latitude south of all that lie so far north, or further.
    #[tactic(auto, unfolding(crate::specs::View::south_of))]
    pub fn south(self, height: i64) -> i64
        requires { IsBelow (2 ^ 46) height }
        ensures value { result ≡ south_of self height }
        ensures range { IsBelow (2 ^ 47) result }
    {
        match self {
            Heights::Latitudes => height,
            Heights::Mercator => mercator::southern_bound(height),
        }
    }

    /// A latitude north of all that lie no further north.
    #[tactic(auto, unfolding(crate::specs::View::north_of))]
    pub fn north(self, height: i64) -> i64
        requires { IsBelow (2 ^ 46) height }
        ensures value { result ≡ north_of self height }
        ensures range { IsBelow (2 ^ 47) result }
    {
        match self {
            Heights::Latitudes => height,
            Heights::Mercator => mercator::northern_bound(height),
        }
    }

    /// How much of height a millionth of a degree of latitude makes at most.
    pub fn steepest(self) -> u8
        ensures value { result ≡ steepest self }
        ensures some { 1 ≤ result }
    {
        match self {
            Heights::Latitudes => 1,
            Heights::Mercator => 12,
        }
    }
}
