ghost use Rattle.std.specs.Prelude.{◌≡◌};

use geom::WorldBox;
use mapdefs::{AllFeatures, Map, Near};
use std::alloc::{AllocError, Global};

// Whether two boxes are the same.
fn is_same(a: WorldBox, b: WorldBox) -> bool {
    a.minx() == b.minx() && a.miny() == b.miny() && a.maxx() == b.maxx() && a.maxy() == b.maxy()
}

/// Finds all features of a map for one window, and is out of memory for any other.
#[derive(Drop)]
pub struct InWindow<'a> {
    alloc: Global,
    map: &'a Map,
    window: WorldBox,
}

impl<'a> InWindow<'a> {
    /// What finds the features of this map for this window.
    pub fn new(alloc: Global, map: &'a Map, window: WorldBox) -> Self
        ensures { result.map.now ≡ map.now }
    {
        InWindow { alloc, map, window }
    }
}

impl<'a> Near for InWindow<'a> {
    ghost map_of = { λ n. n.map.now };

    fn candidates(&self, layer: usize, window: WorldBox) -> Result<Vec<u32>, AllocError> {
        if !is_same(window, self.window) {
            return Err(AllocError);
        }
        AllFeatures::of(self.alloc, self.map).candidates(layer, window)
    }
}
