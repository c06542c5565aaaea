ghost use Rattle.std.specs.Prelude.{◌≡◌, ℕ, ◌<◌, ◌≤◌, ◌+◌, ◌^◌, length, slice_index_or, count_by, All};
ghost use Rattle.std.specs.List.Sorted.{IsPermutation};
ghost use Rattle.geom.specs.EvenOdd.{is_odd};
ghost use Rattle.scanfill.specs.Crossing.{AreOrdered, HaveGoneOn, end_of, reaches, row_of};
ghost use Rattle.scanfill.specs.RowFlips.{flip_if, is_flipped};
ghost use Rattle.scanfill.specs.declared.crossing.Crossing.{Crossing};

use crate::crossing::Crossing;
use crate::row_flips::RowFlips;

/// The crossings of a sweep, and the row that it has come to. Their list has those that have ended
/// first, then those that cross the row, then those that wait, in the order of their first rows.
#[derive(Drop)]
pub struct Crossings {
    list: Vec<Crossing>,
    row: u16,
    passed: usize,
    begun: usize,
    ghost ordered: { AreOrdered list.items row passed begun },
}

impl Crossings {
    /// The crossings, at row 0.
    pub fn new(list: Vec<Crossing>) -> Self
        requires { All (λ c. row_of c < end_of c) list.items }
        ensures row { result.row ≡ 0 }
        ensures same { IsPermutation list.items result.list.items }
    {
        let mut list = list;
        list.sort_unstable_by_key(|crossing| crossing.row());
        let begun = begun_by(&list, 0, 0);
        Crossings {
            list,
            row: 0,
            passed: 0,
            begun,
        }
    }

    /// The row that they have come to.
    pub fn row(&self) -> u16
        ensures { result ≡ self.now.row }
    {
        self.row
    }

    /// Flips the pixels of the row from each crossing on.
    pub fn flip_all(&self, flips: &mut RowFlips)
        ensures width { length flips.new ≡ length flips.old }
        ensures all { (i : ℕ) → i < length flips.old →
            is_flipped flips.new i ≡ flip_if (is_odd (count_by (reaches i self.now.row) self.now.list.items)) (is_flipped flips.old i) }
    {
        for at in self.passed..self.begun {
            flips.flip(self.list[at].column());
        }
    }

    /// Goes on to the next row.
    pub fn next_row(&mut self)
        requires { self.old.row + 1 < 2 ^ 16 }
        ensures row { self.new.row ≡ self.old.row + 1 }
        ensures reach { (i j : ℕ) → self.old.row < j → count_by (reaches i j) self.new.list.items ≡ count_by (reaches i j) self.old.list.items }
    {
        self.passed = go_on(&mut self.list, self.passed, self.begun, self.row);
        self.row += 1;
        self.begun = begun_by(&self.list, self.begun, self.row);
    }

    /// Goes on to the next row that an edge crosses, or to the end. This row may be it.
    pub fn skip(&mut self, end: u16)
        requires { self.old.row ≤ end }
        ensures list { self.new.list.items ≡ self.old.list.items }
        ensures from { self.old.row ≤ self.new.row }
        ensures to { self.new.row ≤ end }
        ensures empty { (i j : ℕ) → self.old.row ≤ j → j < self.new.row → count_by (reaches i j) self.old.list.items ≡ 0 }
    {
        if self.passed < self.begun {
            return;
        }
        self.row = next_begin(&self.list, self.begun, end);
        self.begun = begun_by(&self.list, self.begun, self.row);
    }
}

// The row of the first crossing that waits, or the end, whichever comes first.
fn next_begin(list: &[Crossing], begun: usize, end: u16) -> u16
    requires order { (k l : ℕ) (d : Crossing)
        → begun ≤ k
        → k ≤ l
        → l < length list.now
        → row_of (slice_index_or list.now k d) ≤ row_of (slice_index_or list.now l d) }
    ensures most { result ≤ end }
    ensures least { (k : ℕ) (d : Crossing) → begun ≤ k → k < length list.now → result ≤ row_of (slice_index_or list.now k d) }
    ensures from { (row : ℕ)
        → row ≤ end
        → ((k : ℕ) (d : Crossing) → begun ≤ k → k < length list.now → row ≤ row_of (slice_index_or list.now k d))
        → row ≤ result }
{
    if begun < list.len() {
        return list[begun].row().min(end);
    }
    end
}

// How many crossings have begun by the row, from how many had before it. The others wait in order.
fn begun_by(list: &[Crossing], begun: usize, row: u16) -> usize
    requires within { begun ≤ length list.now }
    requires waiting { (k : ℕ) (d : Crossing) → begun ≤ k → k < length list.now → row ≤ row_of (slice_index_or list.now k d) }
    requires order { (k l : ℕ) (d : Crossing)
        → begun ≤ k
        → k ≤ l
        → l < length list.now
        → row_of (slice_index_or list.now k d) ≤ row_of (slice_index_or list.now l d) }
    ensures rising { begun ≤ result }
    ensures within { result ≤ length list.now }
    ensures begun { (k : ℕ) (d : Crossing) → begun ≤ k → k < result → row_of (slice_index_or list.now k d) ≡ row }
    ensures waiting { (k : ℕ) (d : Crossing) → result ≤ k → k < length list.now → row < row_of (slice_index_or list.now k d) }
{
    for at in begun..list.len() {
        if list[at].row() != row {
            return at;
        }
    }
    list.len()
}

// Takes the crossings that are at a row to the next one, those that end there before the others. It
// returns how many have ended.
fn go_on(list: &mut [Crossing], first: usize, begun: usize, row: u16) -> usize
    requires row { row + 1 < 2 ^ 16 }
    requires ordered { AreOrdered list.old row first begun }
    ensures { HaveGoneOn list.old list.new row result begun }
{
    let mut passed = first;
    for at in first..begun {
        if list[at].end() == row + 1 {
            list.swap(passed, at);
            passed += 1;
        } else {
            list[at].next_row();
        }
    }
    passed
}
