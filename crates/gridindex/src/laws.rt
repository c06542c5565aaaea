//! Laws of the definitions. A law is a function without arguments whose contract states it.

ghost use Rattle.gridindex.specs.Window.{AnswersAreOne};

/// A window has one answer: two lists that are the answer for the same boxes are equal.
pub fn answers()
    ensures { AnswersAreOne }
{}
