//! Laws of the definitions. A law is a function without arguments whose contract states it.

ghost use Rattle.viewport.specs.Axis.{ProductsAreQuotients};
ghost use Rattle.viewport.specs.Plain.{PlainViewsShowTheirArea};
ghost use Rattle.viewport.specs.View.{BeginningsAreRoundedDown, BlocksArePartsOfTheWhole, HeightsAreBounded, HeightsRise, HeightsRiseSlowly, MarginsAreRoundedUp};
ghost use Rattle.viewport.specs.View.{SixteenthsAreRoundedDown, WindowHasNearPlaces};

/// Sixteenths are rounded down: they are the greatest number that isn't more than the part's share.
pub fn sixteenths()
    ensures { SixteenthsAreRoundedDown }
{}

/// Margins are rounded up: they are the fewest millionths of a degree that are no less than their share.
pub fn margins()
    ensures { MarginsAreRoundedUp }
{}

/// What lies before a column is rounded down: it is the greatest number of millionths of a degree that isn't more than
/// its share.
pub fn beginnings()
    ensures { BeginningsAreRoundedDown }
{}

/// A view by a picture of its own has the points of its area, and the area widened by a margin as its window.
pub fn plain()
    ensures { PlainViewsShowTheirArea }
{}

/// The points of a block are those of the whole picture, less its first column and row.
pub fn blocks()
    ensures { BlocksArePartsOfTheWhole }
{}

/// The window of a margin has each place whose pixel is on the canvas. It also has those whose pixel is
/// at most `margin` columns left or right of it, and at most `margin` rows above or below it.
pub fn window()
    ensures { WindowHasNearPlaces }
{}

/// A quotient by a whole is a product with one factor, cut by a limit.
pub fn products()
    ensures { ProductsAreQuotients }
{}

/// What lies further north has no less a height.
pub fn rising()
    ensures { HeightsRise }
{}

/// A millionth of a degree of latitude makes at most twelve of height.
pub fn slowly()
    ensures { HeightsRiseSlowly }
{}

/// What has a height between two others lies between the latitudes that they have.
pub fn bounded()
    ensures { HeightsAreBounded }
{}
