//! Laws of the definitions. A law is a function without arguments whose contract states it.

ghost use Rattle.geom.specs.Decimal.{NearestIsNearest};
ghost use Rattle.geom.specs.Laws.{CrossingsLieOnTheLine, CrossingsStayLeft, RingsBeginAnywhere, RingsGoEitherWay, SharedEdgesCancel, TogetherIsInOne, TurnedEdgesCrossAlike};
ghost use Rattle.geom.specs.Written.{OneText, WrittenIsRead};

/// The rounding of decimal numbers gives the nearest whole number, and of two equally near ones the
/// greater: of sizes that is the one away from zero.
pub fn nearest()
    ensures { NearestIsNearest }
{}

/// A number of millionths that is written out, as a minus below 0, its whole part, a point and six
/// digits, is read as that number.
pub fn written()
    ensures { WrittenIsRead }
{}

/// Of the texts with a sign only below 0, no needless zero before the point and six digits behind it, the
/// one that is written is the only one that is read as the number.
pub fn one_text()
    ensures { OneText }
{}

/// An edge crosses the same points at them or left of them whichever way it goes.
pub fn turned_edges()
    ensures { TurnedEdgesCrossAlike }
{}

/// Where an edge crosses the height of a point at it or left of it, it does so for every point further
/// right on that height.
pub fn crossings_stay_left()
    ensures { CrossingsStayLeft }
{}

/// An edge crosses where the exact line through its ends meets the height: at a point or left
/// of it exactly where the x of this crossing, as a fraction, is at most the point's x.
pub fn crossings_lie_on_the_line()
    ensures { CrossingsLieOnTheLine }
{}

/// A ring may begin at any of its vertices: the same points lie inside.
pub fn rings_begin_anywhere()
    ensures { RingsBeginAnywhere }
{}

/// A ring may go either way round: the same points lie inside.
pub fn rings_go_either_way()
    ensures { RingsGoEitherWay }
{}

/// A point lies inside of two polygons taken together exactly where it lies inside of one of them and not
/// of the other.
pub fn polygons_together()
    ensures { TogetherIsInOne }
{}

/// An edge that two polygons share, each in its own direction, counts for no point of both taken together.
pub fn shared_edges_cancel()
    ensures { SharedEdgesCancel }
{}
