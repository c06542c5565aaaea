ghost use Rattle.smoothing.specs.Laws.{AlphasAreShares, EqualPixelsStay, MeansLieBetween, OneChangesNothing, OrderDoesNotMatter, SharesAreNearest};

/// The law that channels are rounded to the nearest.
pub fn nearest_shares()
    ensures { SharesAreNearest }
{}

/// The law that the mean of equal pixels is what they have, so that inner pixels of a shape keep its colour.
pub fn equal_pixels()
    ensures { EqualPixelsStay }
{}

/// The law that a smoothed picture of factor 1 is the picture.
pub fn factor_one()
    ensures { OneChangesNothing }
{}

/// The law that a mean lies between the least and the greatest.
pub fn between()
    ensures { MeansLieBetween }
{}

/// The law that the order of the pixels doesn't matter.
pub fn order()
    ensures { OrderDoesNotMatter }
{}

/// The law that the alpha is 0 exactly where no pixel has a colour, and 255 exactly where each has one.
pub fn alphas()
    ensures { AlphasAreShares }
{}
