ghost use Rattle.std.specs.Prelude.{◌≡◌, ◌<◌, length, IfOk};
ghost use Rattle.mapdefs.specs.Near.{AreAllOf, AreCandidatesOf};

use crate::{Map, Near};
use geom::WorldBox;
use std::alloc::{AllocError, Global};

/// Every feature of a map, whatever the window is.
#[derive(Drop)]
pub struct AllFeatures<'a> {
    alloc: Global,
    map: &'a Map,
}

impl<'a> AllFeatures<'a> {
    /// Every feature of this map. It keeps the allocator.
    pub fn of(alloc: Global, map: &'a Map) -> Self
        ensures { result.map.now ≡ map.now }
    {
        AllFeatures { alloc, map }
    }
}

impl<'a> Near for AllFeatures<'a> {
    ghost map_of = { λ a. a.map.now };

    fn candidates(&self, layer: usize, _window: WorldBox) -> Result<Vec<u32>, AllocError>
        requires layer { layer < length self.now.map.now.layers }
        ensures near { IfOk result (λ found. AreCandidatesOf self.now.map.now layer _window found.items) }
        ensures all { IfOk result (λ found. AreAllOf self.now.map.now layer found.items) }
    {
        let layer = &self.map.get().layers.as_slice()[layer];
        let count = layer.get().features.len();
        let mut found = Vec::with_capacity(self.alloc, count)?;
        for index in 0..count {
            found.push_reserved(index as u32);
        }
        Ok(found)
    }
}
