ghost use Rattle.std.specs.Prelude.{ℕ, List, ◌≡◌, ◌≤◌, ◌<◌, length, IsTrue, IfOk, Some};
ghost use Rattle.std.specs.List.{All, slice_get};
ghost use Rattle.geom.specs.World.{Area, Meets};
ghost use Rattle.gridindex.specs.Groups.{HasSize, IsLevel, Misses};

use crate::cover::cover_of;
use geom::WorldBox;
use std::alloc::{AllocError, Global};

// The size of the largest groups, 16^7.
const LARGEST: usize = 268_435_456;

/// The size of the smallest groups. A group of each further level has 16 of those before.
pub const SMALLEST: usize = 16;

/// The order in groups of one size, the last perhaps smaller, and the cover of each.
#[derive(Drop)]
pub struct Level {
    size: usize,
    covers: Vec<WorldBox>,
}

impl Level {
    /// The groups of that size.
    pub fn of(
        alloc: Global,
        boxes: &[WorldBox],
        order: &[u32],
        size: usize,
    ) -> Result<Self, AllocError>
        requires { 0 < size }
        ensures { IfOk result (IsLevel boxes.now order.now (length order.now)) }
    {
        let mut covers = Vec::new(alloc);
        let mut from = 0;
        while from < order.len() {
            let end = from.saturating_add(size).min(order.len());
            covers.push(cover_of(boxes, &order[from..end]))?;
            from = end;
        }
        Ok(Level { size, covers })
    }

    /// The same groups again.
    pub fn copied(&self, alloc: Global) -> Result<Self, AllocError>
        ensures size { IfOk result (λ copy. copy.size ≡ self.now.size) }
        ensures covers { IfOk result (λ copy. copy.covers.items ≡ self.now.covers.items) }
    {
        let mut covers = Vec::with_capacity(alloc, self.covers.len())?;
        covers.extend_from_slice(&self.covers)?;
        Ok(Level {
            size: self.size,
            covers,
        })
    }

    /// Where the group that begins at `at` ends, if its cover doesn't meet the window, else `at`.
    pub fn past_missed(&self, at: usize, window: WorldBox) -> usize
        requires { HasSize self.now }
        ensures after { at ≤ result }
        ensures missed { (boxes : List Area) (order : List ℕ) (grouped end : ℕ) → IsLevel boxes order grouped self.now →
            end ≤ grouped → end ≤ result → Misses window boxes order at end }
    {
        if at % self.size == 0 && is_missed(&self.covers, at / self.size, window) {
            return at.saturating_add(self.size);
        }
        at
    }
}

// Whether the group of that number has a cover, and the window doesn't meet it.
fn is_missed(covers: &[WorldBox], number: usize, window: WorldBox) -> bool
    ensures { IsTrue result → (cover : Area) × (slice_get covers.now number ≡ Some cover) × (Meets window cover → ⊥) }
{
    match covers.get(number) {
        Some(cover) => !window.meets(*cover),
        None => false,
    }
}

/// The levels of an order, from the largest groups to the smallest: those that have two groups.
pub fn levels_of(alloc: Global, boxes: &[WorldBox], order: &[u32]) -> Result<Vec<Level>, AllocError>
    ensures { IfOk result (λ levels. All (IsLevel boxes.now order.now (length order.now)) levels.items) }
{
    let mut levels = Vec::new(alloc);
    let mut size = LARGEST;
    while size >= SMALLEST {
        if size < order.len() {
            levels.push(Level::of(alloc, boxes, order, size)?)?;
        }
        size /= 16;
    }
    Ok(levels)
}

/// The same levels again.
pub fn copied(alloc: Global, levels: &[Level]) -> Result<Vec<Level>, AllocError>
    ensures { IfOk result (λ copies. (boxes : List Area) (order : List ℕ) (grouped : ℕ) → All (IsLevel boxes order grouped) levels.now →
        All (IsLevel boxes order grouped) copies.items) }
{
    let mut copies = Vec::with_capacity(alloc, levels.len())?;
    for level in levels {
        copies.push(level.copied(alloc)?)?;
    }
    Ok(copies)
}

/// Where the largest group that begins at `at`, and whose cover doesn't meet the window, ends. It is
/// `at` where there is none.
pub fn past_missed(levels: &[Level], at: usize, window: WorldBox) -> usize
    requires { All HasSize levels.now }
    ensures after { at ≤ result }
    ensures missed { (boxes : List Area) (order : List ℕ) (grouped end : ℕ) → All (IsLevel boxes order grouped) levels.now →
        end ≤ grouped → end ≤ result → Misses window boxes order at end }
{
    for level in levels {
        let end = level.past_missed(at, window);
        if end > at {
            return end;
        }
    }
    at
}
