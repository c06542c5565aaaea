//! Laws of the definitions. A law is a function without arguments whose contract states it.

ghost use Rattle.fills.specs.Flipped.{ChainsInAColumnCoverLikeTheirChord};

/// A chain of vertices between the pixel centres of two columns covers what its chord covers.
pub fn columns()
    ensures { ChainsInAColumnCoverLikeTheirChord }
{}
