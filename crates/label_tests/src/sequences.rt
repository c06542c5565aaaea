use crate::entries::side;
use geom::PictureSide;
use mapdefs::Position;

/// The next number of a sequence, from 0 to before the limit.
pub(crate) fn next(state: &mut u64, limit: i64) -> i64 {
    *state = state
        .wrapping_mul(6_364_136_223_846_793_005)
        .wrapping_add(1_442_695_040_888_963_407);
    ((*state >> 33) as i64).wrapping_mul(limit) >> 31
}

/// A choice of one in so many.
pub(crate) fn is_one_of(state: &mut u64, count: i64) -> bool {
    next(state, count) == 0
}

/// A position, each of them as often, and half as often again the free choice.
pub(crate) fn next_position(state: &mut u64) -> Position {
    match next(state, 15) {
        0 => Position::UpperLeft,
        1 => Position::UpperCentre,
        2 => Position::UpperRight,
        3 => Position::CentreLeft,
        4 => Position::Centre,
        5 => Position::CentreRight,
        6 => Position::LowerLeft,
        7 => Position::LowerCentre,
        8 => Position::LowerRight,
        _ => Position::Automatic,
    }
}

/// The two sides of a picture of up to 60 pixels.
pub(crate) fn next_sides(state: &mut u64) -> (PictureSide, PictureSide) {
    let (width, height) = (next(state, 60), next(state, 60));
    (side(width.wrapping_add(1)), side(height.wrapping_add(1)))
}
