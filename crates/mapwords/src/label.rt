ghost use Rattle.std.specs.Prelude.{◌≡◌};
ghost use Rattle.mapwords.specs.Label.{position_of, flag_of};

use mapdefs::Position;

/// The position that a text names, in letters of either case.
pub fn position_of(text: &str) -> Option<Position>
    ensures { result ≡ position_of text.now }
{
    if text.eq_ignore_ascii_case("UL") {
        Some(Position::UpperLeft)
    } else if text.eq_ignore_ascii_case("UC") {
        Some(Position::UpperCentre)
    } else if text.eq_ignore_ascii_case("UR") {
        Some(Position::UpperRight)
    } else if text.eq_ignore_ascii_case("CL") {
        Some(Position::CentreLeft)
    } else if text.eq_ignore_ascii_case("CC") {
        Some(Position::Centre)
    } else if text.eq_ignore_ascii_case("CR") {
        Some(Position::CentreRight)
    } else if text.eq_ignore_ascii_case("LL") {
        Some(Position::LowerLeft)
    } else if text.eq_ignore_ascii_case("LC") {
        Some(Position::LowerCentre)
    } else if text.eq_ignore_ascii_case("LR") {
        Some(Position::LowerRight)
    } else if text.eq_ignore_ascii_case("AUTO") {
        Some(Position::Automatic)
    } else {
        None
    }
}

/// Whether a text says TRUE or FALSE, in letters of either case.
pub fn flag_of(text: &str) -> Option<bool>
    ensures { result ≡ flag_of text.now }
{
    if text.eq_ignore_ascii_case("TRUE") {
        Some(true)
    } else if text.eq_ignore_ascii_case("FALSE") {
        Some(false)
    } else {
        None
    }
}
