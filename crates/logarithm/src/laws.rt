//! Laws of the definitions. A law is a function without arguments whose contract states it.

ghost use Rattle.logarithm.specs.Nearest.{NumbersAreNearest};

/// Each listed ordinate differs from the logarithm of its latitude by half a unit at most.
pub fn numbers_are_nearest()
    ensures { NumbersAreNearest }
{}
