ghost use Rattle.std.specs.Prelude.{◌≡◌, ◌<◌, ◌≤◌, ◌==◌, length, sum_by, nat_le, OnOk};
ghost use Rattle.mapdefs.specs.declared.limits.TheConstants.{MAX_VERTICES};
ghost use Rattle.maptree.specs.Parts.{no_parts, vertex_count, with_vertex, with_part};

use geom::World;
use mapdefs::{Items, MAX_VERTICES, Part};
use std::alloc::{AllocError, Global};
use std::marker::Model;
use std::mem;

/// The parts of a feature, with at most `MAX_VERTICES` vertices.
#[derive(Drop)]
pub struct Parts {
    parts: Items<Part>,
}

impl Model for Parts {
    ghost use Rattle.std.specs.Prelude.{◌≤◌, List, length, sum_by};
    ghost use Rattle.geom.specs.World.{Place};
    ghost use Rattle.mapdefs.specs.declared.limits.TheConstants.{MAX_VERTICES};

    ghost Value = { List (List Place) };

    ghost view = { λ p. p.parts };

    ghost invariant = { λ p. sum_by length p.parts ≤ MAX_VERTICES };
}

impl Parts {
    /// The parts.
    pub fn into_items(self) -> Items<Part>
        ensures value { result ≡ self }
        ensures limit { sum_by length result ≤ MAX_VERTICES }
    {
        let Parts { parts } = self;
        parts
    }
}

/// The parts of a feature as far as they are read: those that are whole, and the vertices of the next.
#[derive(Drop)]
pub struct PartsDraft {
    whole: Items<Part>,
    // How many vertices the whole parts have.
    count: usize,
    next: Vec<World>,
}

impl Model for PartsDraft {
    ghost use Rattle.std.specs.Prelude.{length};
    ghost use Rattle.maptree.specs.Parts.{PartsSoFar, ArePartsSoFar};

    ghost Value = { PartsSoFar };

    ghost view = { λ d. record { whole = d.whole; next = d.next.items } };

    ghost invariant = { λ d. ArePartsSoFar d.count (record { whole = d.whole; next = d.next.items }) };
}

impl PartsDraft {
    /// No parts, and no vertices.
    pub fn new(alloc: Global) -> Self
        ensures { result ≡ no_parts }
    {
        PartsDraft {
            whole: Items::new(alloc),
            count: 0,
            next: Vec::new(alloc),
        }
    }

    /// Whether there is no room for a further vertex.
    pub fn is_full(&self) -> bool
        ensures { result ≡ nat_le MAX_VERTICES (vertex_count self.now) }
    {
        self.count + self.next.len() >= MAX_VERTICES
    }

    /// Whether the next part has no vertices.
    pub fn is_next_empty(&self) -> bool
        ensures { result ≡ (length self.now.next == 0) }
    {
        self.next.is_empty()
    }

    /// Adds a vertex to the next part.
    pub fn push(&mut self, vertex: World) -> Result<(), AllocError>
        requires { vertex_count self.old < MAX_VERTICES }
        ensures { OnOk result (self.new ≡ with_vertex vertex self.old) }
    {
        self.next.push(vertex)?;
        Ok(())
    }

    /// Makes the next part a whole one, with the boxes of its blocks. It keeps no more memory than it needs.
    pub fn finish_part(&mut self, alloc: Global) -> Result<(), AllocError>
        ensures { OnOk result (self.new ≡ with_part self.old) }
    {
        let mut part = mem::replace(&mut self.next, Vec::new(alloc));
        part.shrink_to_fit();
        let count = part.len();
        self.whole.push(Part::of(alloc, part)?)?;
        self.count += count;
        Ok(())
    }

    /// Whether there is no whole part.
    pub fn is_empty(&self) -> bool
        ensures { result ≡ (length self.now.whole == 0) }
    {
        self.whole.len() == 0
    }

    /// The whole parts.
    pub fn into_parts(self) -> Parts
        ensures { result ≡ self.whole }
    {
        let PartsDraft { whole, .. } = self;
        Parts { parts: whole }
    }
}
