//! Laws of the definitions that the contracts cite. A law is a function without arguments whose contract
//! states it.

ghost use Rattle.strokes.specs.DiscLaw.{BordersBelongToDiscs, DiscsAreRoundPoints, DiscsAreSymmetric, HalfRingsAreDiscs};
ghost use Rattle.strokes.specs.Law.{AreColumnsWide, AreRowsWide, FlatSegmentsFollowTheirLine, IsNothing, IsSameBack, SteepSegmentsFollowTheirLine};
ghost use Rattle.strokes.specs.RoundLaw.{RoundLinesAreSameBack, RoundPointsAreDiscs, RoundRowsAreRuns, RoundSegmentsAreNear, RoundSegmentsAreSameBack};
ghost use Rattle.strokes.specs.Short.{ShortSegmentsAddNothing};

/// In each row whose pixel centres lie between its ends, a segment that goes further down than across covers
/// as many pixels as it is wide, side by side.
pub fn steep()
    ensures { AreRowsWide }
{}

/// In each column whose pixel centres lie between its ends, a flat segment covers as many pixels as it is wide, one
/// below another.
pub fn flat()
    ensures { AreColumnsWide }
{}

/// A segment that goes further down than across covers the points between the heights of its ends that lie within half
/// its width of its line.
pub fn steep_along_its_line()
    ensures { SteepSegmentsFollowTheirLine }
{}

/// Any other one that has a length does so with across and down exchanged.
pub fn flat_along_its_line()
    ensures { FlatSegmentsFollowTheirLine }
{}

/// A segment covers the same pixels in both directions.
pub fn back()
    ensures { IsSameBack }
{}

/// A segment of length 0 covers nothing.
pub fn nothing()
    ensures { IsNothing }
{}

/// A short segment of an odd width covers nothing but what the squares round its ends cover. Its ends lie in pixels of
/// one column or one row, at most the width apart.
pub fn short()
    ensures { ShortSegmentsAddNothing }
{}

/// A round segment covers exactly the points that are at most half its width away from some point of it.
pub fn round_near()
    ensures { RoundSegmentsAreNear }
{}

/// It covers the same points in both directions.
pub fn round_back()
    ensures { RoundSegmentsAreSameBack }
{}

/// A round segment of length 0 covers a disc.
pub fn round_disc()
    ensures { RoundPointsAreDiscs }
{}

/// What lies in a row between two points that a round segment covers is covered, so that each row has one run.
pub fn round_rows()
    ensures { RoundRowsAreRuns }
{}

/// A round line along a part, open or closed, covers the same pixels from its last vertex to its first.
pub fn round_line_back()
    ensures { RoundLinesAreSameBack }
{}

/// A disc without a hole covers what a round line covers that has one vertex, its centre.
pub fn disc_round_point()
    ensures { DiscsAreRoundPoints }
{}

/// Of points that are equally far from its centre a disc covers all or none.
pub fn disc_symmetric()
    ensures { DiscsAreSymmetric }
{}

/// The border of a disc belongs to it, and that of its hole.
pub fn disc_border()
    ensures { BordersBelongToDiscs }
{}

/// A ring of half the size is the whole disc.
pub fn half_ring()
    ensures { HalfRingsAreDiscs }
{}
