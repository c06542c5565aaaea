ghost use Rattle.std.specs.Prelude.{◌≡◌, ◌≤◌, ◌<◌, ◌^◌, [], ◌∷◌, ◌++◌, List, length, IfOk, OnOk, OnErr};
ghost use Rattle.geom.specs.World.{Area};
ghost use Rattle.gridindex.specs.Groups.{HasFound, IsKept};
ghost use Rattle.gridindex.specs.Window.{IsAnswer};

use crate::level::{Level, SMALLEST, copied, levels_of, past_missed};
use crate::order::order_of;
use crate::search::Search;
use geom::WorldBox;
use std::alloc::{AllocError, Global};

// Where more than one box in so many is found, a pass over all boxes takes less time than a sort of those that
// were found.
const MANY: usize = 8;

/// The order of some boxes. The first `grouped` indices of it are in the groups of the levels, those
/// of boxes that were added later follow.
#[derive(Drop)]
pub struct Groups {
    order: Vec<u32>,
    levels: Vec<Level>,
    grouped: usize,
}

impl Groups {
    /// All boxes in groups.
    pub fn of(alloc: Global, boxes: &[WorldBox]) -> Result<Self, AllocError>
        requires { length boxes.now ≤ 2 ^ 32 }
        ensures { IfOk result (λ groups. IsKept groups boxes.now) }
    {
        let order = order_of(alloc, boxes)?;
        let levels = levels_of(alloc, boxes, &order)?;
        let grouped = order.len();
        Ok(Groups {
            order,
            levels,
            grouped,
        })
    }

    /// The same groups again, with room for so many boxes in all.
    pub fn copied(&self, alloc: Global, room: usize) -> Result<Self, AllocError>
        ensures { IfOk result (λ copy. (boxes : List Area) → IsKept self.now boxes → IsKept copy boxes) }
    {
        let mut order = Vec::with_capacity(alloc, room)?;
        order.extend_from_slice(&self.order)?;
        Ok(Groups {
            order,
            levels: copied(alloc, &self.levels)?,
            grouped: self.grouped,
        })
    }

    /// Whether so many boxes were added since all were grouped that all should be grouped again. That is about
    /// a 64th of the grouped ones, and at least 64. The answers don't depend on it, but the speed does.
    pub fn is_grouping_due(&self) -> bool {
        let added = self.order.len().saturating_sub(self.grouped);
        added / 64 > self.grouped / 4_096
    }

    /// Adds the index of a further box. Where memory is refused nothing changes.
    pub fn add(&mut self, index: u32) -> Result<(), AllocError>
        ensures ok { OnOk result ((boxes : List Area) (area : Area) → IsKept self.old boxes → length boxes ≡ index →
            IsKept self.new (boxes ++ area ∷ [])) }
        ensures err { OnErr result ((boxes : List Area) → IsKept self.old boxes → IsKept self.new boxes) }
    {
        self.order.push(index)?;
        Ok(())
    }

    /// No boxes. It takes no memory.
    pub fn clear(&mut self)
        ensures { IsKept self.new [] }
    {
        self.order.clear();
        self.levels.clear();
        self.grouped = 0;
    }

    /// The indices of the boxes that meet the window.
    pub fn find(
        &self,
        alloc: Global,
        boxes: &[WorldBox],
        window: WorldBox,
    ) -> Result<Vec<u32>, AllocError>
        requires { IsKept self.now boxes.now }
        ensures { IfOk result (λ found. IsAnswer window boxes.now found.items) }
    {
        let search = Search { boxes, window };
        let mut found = Vec::new(alloc);
        let mut at = 0;
        while at < self.grouped {
            at = self.step(&search, at, &mut found)?;
        }
        search.add_hits(&self.order, at..self.order.len(), &mut found)?;
        if found.len() > boxes.len() / MANY {
            found.clear();
            search.add_in_order(&mut found)?;
            return Ok(found);
        }
        found.sort_unstable();
        Ok(found)
    }

    // Leaves out the largest group at `at` that misses the window, or tries the boxes of the smallest
    // group. Gives where it ends.
    fn step(&self, search: &Search, at: usize, found: &mut Vec<u32>) -> Result<usize, AllocError>
        requires kept { IsKept self.now search.now.boxes.now }
        requires grouped { at < self.now.grouped }
        ensures further { IfOk result (λ end. at < end) }
        ensures bound { IfOk result (λ end. end ≤ self.now.grouped) }
        ensures found { IfOk result (λ end. HasFound search.now.window search.now.boxes.now self.now.order.items at found.old.items →
            HasFound search.now.window search.now.boxes.now self.now.order.items end found.new.items) }
    {
        let past = past_missed(&self.levels, at, search.window).min(self.grouped);
        if past > at {
            return Ok(past);
        }
        let end = at.saturating_add(SMALLEST).min(self.grouped);
        search.add_hits(&self.order, at..end, found)?;
        Ok(end)
    }
}
