ghost use Rattle.std.specs.Prelude.{◌≡◌, ◌<◌, ◌≤◌, false, [], length, replicate, IfOk, OnOk};
ghost use Rattle.scanfill.specs.RowFlips.{AreWithin};
ghost use Rattle.scanfill.specs.Runs.{AreRunsFrom};
ghost use Rattle.strokes.specs.Columns.{AreMarked, is_marked};

use geom::PictureSide;
use scanfill::{Reading, Span, Spans};
use std::alloc::{AllocError, Global};
use std::marker::Model;

/// The columns of a row that are covered: for each column whether it is.
#[derive(Drop)]
pub struct Marks {
    marks: Vec<bool>,
    first: u16,
    past: u16,
}

impl Model for Marks {
    ghost use Rattle.std.specs.Prelude.{List, Bool};
    ghost use Rattle.scanfill.specs.RowFlips.{AreWithin};

    ghost Value = { List Bool };

    ghost view = { λ m. m.marks.items };

    ghost invariant = { λ m. AreWithin m.marks.items m.first m.past };
}

impl Marks {
    /// No marks, on that many columns.
    pub fn new(alloc: Global, width: PictureSide) -> Result<Self, AllocError>
        ensures { IfOk result (λ marks. marks ≡ replicate width false) }
    {
        let width = width.pixels();
        Ok(Marks {
            marks: vec![in alloc; false; usize::from(width)]?,
            first: width,
            past: 0,
        })
    }

    /// Marks the columns of a span too.
    pub fn mark(&mut self, span: Span)
        requires { span.to ≤ length self.old }
        ensures { AreMarked span self.old self.new }
    {
        if span.from < span.to {
            mark_span(&mut self.marks, span);
            self.first = self.first.min(span.from);
            self.past = self.past.max(span.to);
        }
    }

    /// Adds to the empty `out` the longest runs of marked columns. It looks at the columns from the first
    /// mark to the last one.
    pub fn read(&self, out: &mut Spans) -> Result<(), AllocError>
        requires { out.old ≡ [] }
        ensures { OnOk result (AreRunsFrom (is_marked self.now) 0 (length self.now) out.new) }
    {
        read_marks(&self.marks, self.first, self.past, out)
    }
}

// Marks the columns of a span.
fn mark_span(marks: &mut [bool], span: Span)
    requires some { span.from < span.to }
    requires within { span.to ≤ length marks.old }
    ensures { AreMarked span marks.old marks.new }
{
    for column in span.from..span.to {
        marks[usize::from(column)] = true;
    }
}

// Adds to the empty `out` the runs of marks, which lie from one column to before another.
fn read_marks(marks: &[bool], first: u16, past: u16, out: &mut Spans) -> Result<(), AllocError>
    requires within { AreWithin marks.now first past }
    requires empty { out.old ≡ [] }
    ensures { OnOk result (AreRunsFrom (is_marked marks.now) 0 (length marks.now) out.new) }
{
    let end = marks.len() as u16;
    let last = first.max(past);
    let before = Span { from: 0, to: first };
    let mut reading = Reading::Outside.go_on(before, false, out)?;
    for column in first..last {
        let pixel = Span {
            from: column,
            to: column + 1,
        };
        reading = reading.go_on(pixel, marks[usize::from(column)], out)?;
    }
    let behind = Span {
        from: last,
        to: end,
    };
    let reading = reading.go_on(behind, false, out)?;
    reading.finish(end, out)
}
