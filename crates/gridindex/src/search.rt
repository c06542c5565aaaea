ghost use Rattle.std.specs.Prelude.{nat_eq, ◌≡◌, ◌≤◌, ◌+◌, ◌^◌, ◌↔◌, [], length, IsTrue, OnOk};
ghost use Rattle.std.specs.List.{IsDistinct};
ghost use Rattle.gridindex.specs.Groups.{HasFound};
ghost use Rattle.gridindex.specs.Window.{IsAnswer, IsAnswerOfFirst, MeetsAt};

use geom::WorldBox;
use std::alloc::AllocError;
use std::ops::Range;

/// A search for the boxes of a list that meet a window.
#[derive(Drop)]
pub struct Search<'a> {
    pub boxes: &'a [WorldBox],
    pub window: WorldBox,
}

impl Search<'_> {
    /// Adds to the empty list the indices of the boxes that meet the window, in their order.
    pub fn add_in_order(&self, found: &mut Vec<u32>) -> Result<(), AllocError>
        requires empty { found.old.items ≡ [] }
        requires count { length self.now.boxes.now ≤ 2 ^ 32 }
        ensures { OnOk result (IsAnswer self.now.window self.now.boxes.now found.new.items) }
    {
        for index in 0..self.boxes.len() {
            self.add_hit(index as u32, found)?;
        }
        Ok(())
    }

    // Adds the index if its box meets the window.
    fn add_hit(&self, index: u32, found: &mut Vec<u32>) -> Result<(), AllocError>
        ensures { OnOk result (IsAnswerOfFirst self.now.window self.now.boxes.now index found.old.items →
            IsAnswerOfFirst self.now.window self.now.boxes.now (index + 1) found.new.items) }
    {
        if self.is_hit(index) {
            found.push(index)?;
        }
        Ok(())
    }

    /// Adds the indices of a part of the order whose boxes meet the window.
    pub fn add_hits(
        &self,
        order: &[u32],
        part: Range<usize>,
        found: &mut Vec<u32>,
    ) -> Result<(), AllocError>
        requires once { IsDistinct nat_eq order.now }
        requires rising { part.start ≤ part.end }
        requires bound { part.end ≤ length order.now }
        ensures { OnOk result (HasFound self.now.window self.now.boxes.now order.now part.start found.old.items →
            HasFound self.now.window self.now.boxes.now order.now part.end found.new.items) }
    {
        for at in part.start..part.end {
            let index = order[at];
            if self.is_hit(index) {
                found.push(index)?;
            }
        }
        Ok(())
    }

    // Whether the box of that index meets the window.
    fn is_hit(&self, index: u32) -> bool
        ensures { IsTrue result ↔ MeetsAt self.now.window self.now.boxes.now index }
    {
        match self.boxes.get(index as usize) {
            Some(area) => self.window.meets(*area),
            None => false,
        }
    }
}
