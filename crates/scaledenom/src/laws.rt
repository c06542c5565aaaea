//! Laws of the definitions. A law is a function without arguments whose contract states it.

ghost use Rattle.scaledenom.specs.Scale.{BoundsAreFractions, OneOfTwoIsVisible, WorkedMetres, WorkedScale};

/// A bound, in millionths, is reached exactly where its number is at most the scale denominator, which
/// is the exact fraction of the two widths.
pub fn bounds_are_fractions()
    ensures { BoundsAreFractions }
{}

/// A scale denominator at which one object ends and another begins shows the second, and each scale
/// denominator shows exactly one of them.
pub fn one_of_two_is_visible()
    ensures { OneOfTwoIsVisible }
{}

/// 0.28 degrees in a picture of one pixel are shown at the scale denominator 111,319,491.
pub fn worked_scale()
    ensures { WorkedScale }
{}

/// 0.28 mm in a picture of one pixel are shown at the scale denominator 1, and a tile of zoom 14 of web mercator
/// at 34,123.67 or more, but less than 34,123.68.
pub fn worked_metres()
    ensures { WorkedMetres }
{}
