//! Laws of the definitions that the contracts cite. A law is a function without arguments whose
//! contract states it.

ghost use Rattle.mapwords.specs.Colour.{HexDigitsAreColour};
ghost use Rattle.mapwords.specs.Given.{CountsAreColour};

/// A text of `#` and six hexadecimal digits is the colour of its red, green and blue, in this order.
pub fn hex_digits_are_colour()
    ensures { HexDigitsAreColour }
{}

/// Three counts after COLOR are the red, the green and the blue of its colour.
pub fn counts_are_colour()
    ensures { CountsAreColour }
{}
