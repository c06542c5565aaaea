//! Laws of the definitions. A law is a function without arguments whose contract states it.

ghost use Rattle.featureinfo.specs.Hits.{HasOneHitList, ToleranceOnlyAdds};
ghost use Rattle.featureinfo.specs.Nearby.{NearbyAreWithin};
ghost use Rattle.featureinfo.specs.Reach.{NearIsNotFar};

/// The pixels that are near the queried one are those of the picture within so many columns and rows of it.
pub fn nearby()
    ensures { NearbyAreWithin }
{}

/// A feature whose vertices all lie beyond one side of the pixels near the queried one covers none of them plainly.
pub fn far()
    ensures { NearIsNotFar }
{}

/// A layer has at most one list of hits.
pub fn one_hit_list()
    ensures { HasOneHitList }
{}

/// A feature that is hit stays hit where the layer's TOLERANCE grows.
pub fn tolerance_only_adds()
    ensures { ToleranceOnlyAdds }
{}
