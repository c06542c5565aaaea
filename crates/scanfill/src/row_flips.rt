ghost use Rattle.std.specs.Prelude.{◌≡◌, false, [], length, replicate, IfOk, OnOk};
ghost use Rattle.scanfill.specs.RowFlips.{AreFlippedFrom, AreWithin, is_flipped};
ghost use Rattle.scanfill.specs.Runs.{AreRunsFrom};

use crate::reading::Reading;
use crate::span::{Span, Spans};
use clip::clamped;
use geom::PictureSide;
use std::alloc::{AllocError, Global};
use std::marker::Model;

/// The columns of a row at which its pixels go in or out: for each column whether they flip there.
#[derive(Drop)]
pub struct RowFlips {
    flips: Vec<bool>,
    first: u16,
    past: u16,
}

impl Model for RowFlips {
    ghost use Rattle.std.specs.Prelude.{List, Bool};
    ghost use Rattle.scanfill.specs.RowFlips.{AreWithin};

    ghost Value = { List Bool };

    ghost view = { λ f. f.flips.items };

    ghost invariant = { λ f. AreWithin f.flips.items f.first f.past };
}

impl RowFlips {
    /// No flips, on that many columns.
    pub fn new(alloc: Global, width: PictureSide) -> Result<Self, AllocError>
        ensures { IfOk result (λ flips. flips ≡ replicate width false) }
    {
        let width = width.pixels();
        Ok(RowFlips {
            flips: vec![in alloc; false; usize::from(width)]?,
            first: width,
            past: 0,
        })
    }

    /// Flips the pixels from a column on. A column below 0 is the first one, and one past the end changes
    /// nothing.
    pub fn flip(&mut self, column: i64)
        ensures { AreFlippedFrom column self.old self.new }
    {
        let width = self.flips.len() as u16;
        let at = clamped(i128::from(column), width);
        if at < width {
            self.flips[usize::from(at)] = !self.flips[usize::from(at)];
            self.first = self.first.min(at);
            self.past = self.past.max(at + 1);
        }
    }

    /// Adds to the empty `out` the longest runs of pixels that lie inside. It looks at the columns from the
    /// first flip to the last one.
    pub fn read(&self, out: &mut Spans) -> Result<(), AllocError>
        requires { out.old ≡ [] }
        ensures { OnOk result (AreRunsFrom (is_flipped self.now) 0 (length self.now) out.new) }
    {
        read_flips(&self.flips, self.first, self.past, out)
    }

    /// Removes all flips.
    pub fn clear(&mut self)
        ensures { self.new ≡ replicate (length self.old) false }
    {
        clear_flips(&mut self.flips, self.first, self.past);
        self.first = self.flips.len() as u16;
        self.past = 0;
    }
}

// Removes the flips of a row, which lie from one column to before another.
fn clear_flips(flips: &mut [bool], first: u16, past: u16)
    requires { AreWithin flips.old first past }
    ensures { flips.new ≡ replicate (length flips.old) false }
{
    for column in first..past {
        flips[usize::from(column)] = false;
    }
}

// Adds to the empty `out` the runs of a row whose flips lie from one column to before another.
fn read_flips(flips: &[bool], first: u16, past: u16, out: &mut Spans) -> Result<(), AllocError>
    requires within { AreWithin flips.now first past }
    requires empty { out.old ≡ [] }
    ensures { OnOk result (AreRunsFrom (is_flipped flips.now) 0 (length flips.now) out.new) }
{
    let end = flips.len() as u16;
    let mut reading = Reading::Outside;
    let mut is_inside = false;
    let mut at = 0;
    for column in first..past {
        if flips[usize::from(column)] {
            let columns = Span {
                from: at,
                to: column,
            };
            reading = reading.go_on(columns, is_inside, out)?;
            is_inside = !is_inside;
            at = column;
        }
    }
    let reading = reading.go_on(Span { from: at, to: end }, is_inside, out)?;
    reading.finish(end, out)
}
