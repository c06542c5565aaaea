ghost use Rattle.std.specs.Prelude.{◌<◌, length, IfOk};
ghost use Rattle.mapdefs.specs.declared.map.MapFields.{MapFields};
ghost use Rattle.mapdefs.specs.Near.{AreCandidatesOf};

use geom::WorldBox;
use std::alloc::AllocError;

/// What finds the features of a map that may be seen in a window.
pub trait Near {
    // The map whose features it finds.
    ghost map_of: { Self → MapFields };

    /// Features of the layer of that index: all whose box of points meets the window, and perhaps others, by
    /// their indices, each below the next.
    fn candidates(&self, layer: usize, window: WorldBox) -> Result<Vec<u32>, AllocError>
        requires layer { layer < length (map_of self.now).layers }
        ensures { IfOk result (λ found. AreCandidatesOf (map_of self.now) layer window found.items) };
}
