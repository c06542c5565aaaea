//! Laws of the definitions. A law is a function without arguments whose contract states it.

ghost use Rattle.symbols.specs.Law.{AreFilesRead, AreMapsRead, ArePicturesRead, AreWrittenAlike};

/// A file that is made from a header, with any white space and any comments between its numbers, and from
/// pixels is read as these.
pub fn files()
    ensures { AreFilesRead }
{}

/// A picture of at most `MAX_SYMBOL_SIDE` pixels on each side is read as it was written as a pixmap, where
/// pixels that have nothing are 0 0 0.
pub fn pictures()
    ensures { ArePicturesRead }
{}

/// A picture that was written as a portable arbitrary map is the one that the map shows by the rules of that
/// format. The map shows nothing where the picture has nothing, and its colours elsewhere.
pub fn maps()
    ensures { AreMapsRead }
{}

/// A picture is written in both formats as it is with its alphas.
pub fn alphas()
    ensures { AreWrittenAlike }
{}
