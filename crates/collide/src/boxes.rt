ghost use Rattle.std.specs.Prelude.{◌≡◌, ◌≤◌, [], ◌∷◌, ◌++◌, ◌↔◌, IsTrue, IfOk, OnOk, OnErr};
ghost use Rattle.std.specs.List.{Any};
ghost use Rattle.geom.specs.PxBox.{Meets};
ghost use Rattle.collide.specs.declared.marks.TheConstants.{MAX_SIDE};
ghost use Rattle.collide.specs.Marks.{IsMarkable, IsWhole};

use crate::marks::Marks;
use geom::PxBox;
use std::alloc::{AllocError, Global};
use std::marker::Model;

/// Boxes in the order in which they were added. They may lie off the picture.
///
/// A box that meets the picture, or touches it, is tested by the pixels that are marked: two of these that share a
/// pixel share one there. If some box lies further off, the boxes are tested one by one.
#[derive(Drop)]
pub struct Boxes {
    boxes: Vec<PxBox>,
    marks: Marks,
    all_near: bool,
}

impl Model for Boxes {
    ghost use Rattle.std.specs.Prelude.{List};
    ghost use Rattle.geom.specs.PxBox.{PixelBoxValue};
    ghost use Rattle.collide.specs.Marks.{IsKept};

    ghost Value = { List PixelBoxValue };

    ghost view = { λ b. b.boxes.items };

    ghost invariant = { λ b. IsKept b.marks b.all_near b.boxes.items };
}

impl Boxes {
    /// No boxes, on a picture of that width and height.
    pub fn new(alloc: Global, width: u16, height: u16) -> Result<Self, AllocError>
        requires width { width ≤ MAX_SIDE }
        requires height { height ≤ MAX_SIDE }
        ensures { IfOk result (λ boxes. boxes ≡ []) }
    {
        Ok(Boxes {
            boxes: Vec::new(alloc),
            marks: Marks::new(alloc, width, height)?,
            all_near: true,
        })
    }

    /// Adds a box. Where memory is refused nothing changes.
    pub fn add(&mut self, area: PxBox) -> Result<(), AllocError>
        ensures ok { OnOk result (self.new ≡ self.old ++ area ∷ []) }
        ensures err { OnErr result (self.new ≡ self.old) }
    {
        self.boxes.push(area)?;
        self.all_near = are_near(&self.marks, self.all_near, area);
        self.marks.mark(area);
        Ok(())
    }

    /// Whether some pixel lies in the box and in one that was added.
    pub fn hits(&self, area: PxBox) -> bool
        ensures { IsTrue result ↔ Any (Meets area) self.now }
    {
        if are_near(&self.marks, self.all_near, area) {
            return self.marks.has_marked(area);
        }
        meets_any(&self.boxes, area)
    }
}

// Whether a box and all others are near.
fn are_near(marks: &Marks, others: bool, area: PxBox) -> bool
    requires { IsWhole marks.now }
    ensures { IsTrue result ↔ (IsTrue others × IsMarkable marks.now area) }
{
    others && marks.is_near(area)
}

// Whether some pixel lies in the box and in one of others.
fn meets_any(boxes: &[PxBox], area: PxBox) -> bool
    ensures { IsTrue result ↔ Any (Meets area) boxes.now }
{
    for other in boxes {
        if area.meets(*other) {
            return true;
        }
    }
    false
}
