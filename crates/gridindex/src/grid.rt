ghost use Rattle.std.specs.Prelude.{◌≡◌, ◌≤◌, ◌<◌, ◌^◌, [], ◌∷◌, ◌++◌, ◌+◌, length, IfOk, OnOk, OnErr};
ghost use Rattle.gridindex.specs.Window.{IsAnswer};

use crate::groups::Groups;
use geom::WorldBox;
use std::alloc::{AllocError, Global};
use std::marker::Model;

/// Boxes of the world, at most 2^32 of them, in a list that is quickly searched for those that meet a
/// window. It takes memory in proportion to their number, whatever their sizes.
#[derive(Drop)]
pub struct Grid {
    alloc: Global,
    boxes: Vec<WorldBox>,
    groups: Groups,
}

impl Model for Grid {
    ghost use Rattle.std.specs.Prelude.{List};
    ghost use Rattle.geom.specs.World.{Area};
    ghost use Rattle.gridindex.specs.Groups.{IsKept};

    ghost Value = { List Area };

    ghost view = { λ g. g.boxes.items };

    ghost invariant = { λ g. IsKept g.groups g.boxes.items };
}

impl Grid {
    /// The grid of those boxes. It keeps the allocator.
    pub fn build(alloc: Global, boxes: Vec<WorldBox>) -> Result<Self, AllocError>
        requires { length boxes.items ≤ 2 ^ 32 }
        ensures { IfOk result (λ grid. grid ≡ boxes.items) }
    {
        let groups = Groups::of(alloc, &boxes)?;
        Ok(Grid {
            alloc,
            boxes,
            groups,
        })
    }

    /// A new grid of these boxes and of others after them. It takes memory for all of them, and less time than
    /// `build` where most are of this grid. They are grouped again only if so many were added that it is due.
    pub fn extended(&self, more: &[WorldBox]) -> Result<Self, AllocError>
        requires { length self.now + length more.now ≤ 2 ^ 32 }
        ensures { IfOk result (λ grid. grid ≡ self.now ++ more.now) }
    {
        let mut grid = self.copied(self.boxes.len() + more.len())?;
        for area in more {
            grid.push(*area)?;
        }
        grid.regroup()?;
        Ok(grid)
    }

    // The same boxes again, with room for so many.
    fn copied(&self, room: usize) -> Result<Self, AllocError>
        ensures { IfOk result (λ grid. grid ≡ self.now) }
    {
        let mut boxes = Vec::with_capacity(self.alloc, room)?;
        boxes.extend_from_slice(&self.boxes)?;
        let groups = self.groups.copied(self.alloc, room)?;
        Ok(Grid {
            alloc: self.alloc,
            boxes,
            groups,
        })
    }

    /// Adds a box, whose index is the number of boxes before. Where memory is refused nothing
    /// changes.
    pub fn add(&mut self, area: WorldBox) -> Result<(), AllocError>
        requires { length self.old < 2 ^ 32 }
        ensures ok { OnOk result (self.new ≡ self.old ++ area ∷ []) }
        ensures err { OnErr result (self.new ≡ self.old) }
    {
        self.regroup()?;
        self.push(area)
    }

    // Groups all boxes again, if that is due.
    fn regroup(&mut self) -> Result<(), AllocError>
        ensures { self.new ≡ self.old }
    {
        if self.groups.is_grouping_due() {
            self.groups = Groups::of(self.alloc, &self.boxes)?;
        }
        Ok(())
    }

    // Adds a box to those that are in no group. Where memory is refused nothing changes.
    fn push(&mut self, area: WorldBox) -> Result<(), AllocError>
        requires { length self.old < 2 ^ 32 }
        ensures ok { OnOk result (self.new ≡ self.old ++ area ∷ []) }
        ensures err { OnErr result (self.new ≡ self.old) }
    {
        self.boxes.reserve(1)?;
        self.groups.add(self.boxes.len() as u32)?;
        self.boxes.push_reserved(area);
        Ok(())
    }

    /// Takes all boxes out. It takes no memory.
    pub fn clear(&mut self)
        ensures { self.new ≡ [] }
    {
        self.boxes.clear();
        self.groups.clear();
    }

    /// The indices of all boxes that meet the window, ends included, rising and each once.
    pub fn candidates(&self, window: WorldBox) -> Result<Vec<u32>, AllocError>
        ensures { IfOk result (λ found. IsAnswer window self.now found.items) }
    {
        self.groups.find(self.alloc, &self.boxes, window)
    }
}
