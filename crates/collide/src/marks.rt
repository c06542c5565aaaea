ghost use Rattle.std.specs.Prelude.{◌≡◌, ◌+◌, ◌≤◌, ◌↔◌, IsTrue, IfOk};
ghost use Rattle.collide.specs.declared.marks.TheConstants.{MAX_SIDE};
ghost use Rattle.collide.specs.Marks.{HasMarked, IsBlank, IsMarkedBy, IsMarkable, IsWhole, around, bit_of};

use crate::bits::{has_any, set_all};
use geom::PxBox;
use std::alloc::{AllocError, Global};

/// The most columns of a picture, and the most rows: those of one of 2,048 that is four times as fine.
pub const MAX_SIDE: u16 = 8_192;

/// A bit for each pixel of a picture with one more column and one more row on each side, row by row from the top:
/// whether the pixel is marked.
#[derive(Drop)]
pub struct Marks {
    words: Vec<u64>,
    columns: usize,
    rows: usize,
}

impl Marks {
    /// No marks, over a picture of that width and height.
    pub fn new(alloc: Global, width: u16, height: u16) -> Result<Self, AllocError>
        requires width { width ≤ MAX_SIDE }
        requires height { height ≤ MAX_SIDE }
        ensures blank { IfOk result IsBlank }
        ensures columns { IfOk result (λ marks. marks.columns ≡ width + 2) }
        ensures rows { IfOk result (λ marks. marks.rows ≡ height + 2) }
    {
        let columns = usize::from(width) + 2;
        let rows = usize::from(height) + 2;
        let words = vec![in alloc; 0; columns * rows / 64 + 1]?;
        Ok(Marks {
            words,
            columns,
            rows,
        })
    }

    // The pixels that have a bit.
    fn around(&self) -> PxBox
        requires { IsWhole self.now }
        ensures { result ≡ around self.now }
    {
        PxBox::new(-1, -1, self.columns as i64 - 1, self.rows as i64 - 1)
    }

    /// Whether a box has a pixel that has a bit, if it has any.
    pub fn is_near(&self, area: PxBox) -> bool
        requires { IsWhole self.now }
        ensures { IsTrue result ↔ IsMarkable self.now area }
    {
        if area.meets(area) {
            return area.meets(self.around());
        }
        true
    }

    /// Marks the pixels of a box that have a bit.
    pub fn mark(&mut self, area: PxBox)
        requires { IsWhole self.old }
        ensures whole { IsWhole self.new }
        ensures columns { self.new.columns ≡ self.old.columns }
        ensures rows { self.new.rows ≡ self.old.rows }
        ensures marked { IsMarkedBy area self.old self.new }
    {
        let left = bit_of(area.left(), self.columns);
        let right = bit_of(area.right(), self.columns);
        let top = bit_of(area.top(), self.rows);
        let bottom = bit_of(area.bottom(), self.rows);
        for row in top..bottom {
            let start = row * self.columns;
            set_all(&mut self.words, start + left, start + right);
        }
    }

    /// Whether a pixel of a box is marked.
    pub fn has_marked(&self, area: PxBox) -> bool
        requires { IsWhole self.now }
        ensures { IsTrue result ↔ HasMarked self.now area }
    {
        let left = bit_of(area.left(), self.columns);
        let right = bit_of(area.right(), self.columns);
        let top = bit_of(area.top(), self.rows);
        let bottom = bit_of(area.bottom(), self.rows);
        for row in top..bottom {
            let start = row * self.columns;
            if has_any(&self.words, start + left, start + right) {
                return true;
            }
        }
        false
    }
}

// Which bit of so many in a row, or a column, a position has. Beyond the last one it is the number of all.
fn bit_of(position: i64, count: usize) -> usize
    ensures value { result ≡ bit_of count position }
    ensures most { result ≤ count }
{
    if position < 0 {
        return 0;
    }
    (position.unsigned_abs() as usize + 1).min(count)
}
