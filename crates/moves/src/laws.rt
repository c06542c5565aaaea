//! Laws of the definitions. A law is a function without arguments whose contract states it.

ghost use Rattle.moves.specs.Laws.{DiscsMove, InkMoves, LinesAreMoved, LinesMove, OutlinesMove, PixelsMove, RingsMove, RoundLinesAreMoved, RoundLinesMove, SquaresMove, StampColoursMove, StampsMove};

/// From a corner a point lies in the pixel that it lies in, as that lies from the corner.
pub fn pixels()
    ensures { PixelsMove }
{}

/// A pixel centre lies inside of rings that lie from a corner exactly where the centre so far behind the corner
/// lies inside of the rings.
pub fn rings()
    ensures { RingsMove }
{}

/// The line along parts that lie from a corner covers that many columns and rows behind it what the line along the
/// parts covers.
pub fn lines()
    ensures is { LinesAreMoved }
    ensures covers { LinesMove }
{}

/// So does the round line along them.
pub fn round_lines()
    ensures is { RoundLinesAreMoved }
    ensures covers { RoundLinesMove }
{}

/// So does a square.
pub fn squares()
    ensures { SquaresMove }
{}

/// So does a disc.
pub fn discs()
    ensures { DiscsMove }
{}

/// So does a stamp, with the same colours.
pub fn stamps()
    ensures covers { StampsMove }
    ensures colours { StampColoursMove }
{}

/// So do the ink of a text and its outline.
pub fn texts()
    ensures ink { InkMoves }
    ensures outlines { OutlinesMove }
{}
