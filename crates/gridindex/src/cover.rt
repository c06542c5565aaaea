ghost use Rattle.std.specs.Prelude.{◌≡◌, ◌≤ℤ◌, Some};
ghost use Rattle.std.specs.List.{slice_get};
ghost use Rattle.geom.specs.World.{Area};
ghost use Rattle.gridindex.specs.Groups.{Encloses, EnclosesAll};

use geom::{Micro, WorldBox};

/// A box that encloses the boxes at the indices. An index past the last box is skipped.
pub fn cover_of(boxes: &[WorldBox], indices: &[u32]) -> WorldBox
    ensures { EnclosesAll result boxes.now indices.now }
{
    let mut cover = no_place();
    for index in indices {
        cover = with_box(cover, boxes, *index);
    }
    cover
}

// The cover, made larger so that it encloses the box of an index, if there is one.
fn with_box(cover: WorldBox, boxes: &[WorldBox], index: u32) -> WorldBox
    ensures kept { Encloses result cover }
    ensures added { (area : Area) → slice_get boxes.now index ≡ Some area → Encloses result area }
{
    match boxes.get(index as usize) {
        Some(area) => joined(cover, *area),
        None => cover,
    }
}

// A box without a place. Joined with another box it is that one.
fn no_place() -> WorldBox {
    let least = Micro::new(i64::MIN);
    let most = Micro::new(i64::MAX);
    WorldBox::new(most, most, least, least)
}

// The box from the least sides of two boxes to the greatest.
fn joined(a: WorldBox, b: WorldBox) -> WorldBox
    ensures one { Encloses result a }
    ensures other { Encloses result b }
{
    WorldBox::new(
        a.minx().min(b.minx()),
        a.miny().min(b.miny()),
        a.maxx().max(b.maxx()),
        a.maxy().max(b.maxy()),
    )
}
