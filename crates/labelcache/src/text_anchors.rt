ghost use Rattle.std.specs.Prelude.{◌≡◌, ◌^◌, ◌-ℤ◌, unsigned_abs, ◌<◌, [], ◌∷◌, ◌++◌, ◌↔◌, All, IsTrue, OnOk, OnErr};
ghost use Rattle.std.specs.List.{Any};
ghost use Rattle.geom.specs.Range.{IsBelow};
ghost use Rattle.labelcache.specs.Anchors.{IsAnchorNear};
ghost use Rattle.labelcache.specs.Candidate.{IsAnchor, square, squared_distance};

use crate::distance::is_within;
use crate::marked::MarkedAnchors;
use geom::Pixel;
use std::alloc::{AllocError, Global};
use std::marker::Model;

// How many anchors of a text are compared one by one, which takes less than a search in cells. No cell is marked for them.
const FEW: usize = 256;

/// The anchors of the labels of one text, in the order in which they were added: the first few, and the others.
#[derive(Drop)]
pub struct TextAnchors {
    first: Vec<Pixel>,
    others: MarkedAnchors,
}

impl Model for TextAnchors {
    ghost use Rattle.std.specs.Prelude.{List, ◌++◌};
    ghost use Rattle.geom.specs.Device.{PixelValue};
    ghost use Rattle.labelcache.specs.Anchors.{AreFirst};

    ghost Value = { List PixelValue };

    ghost view = { λ p. p.first.items ++ p.others };

    ghost invariant = { λ p. AreFirst p.first.items p.others };
}

impl TextAnchors {
    /// No anchors. It takes no memory.
    pub fn new(alloc: Global) -> Self
        ensures { result ≡ [] }
    {
        TextAnchors {
            first: Vec::new(alloc),
            others: MarkedAnchors::new(alloc),
        }
    }

    /// Adds an anchor. Where memory is refused nothing changes.
    pub fn add(&mut self, anchor: Pixel) -> Result<(), AllocError>
        requires { IsAnchor anchor }
        ensures ok { OnOk result (self.new ≡ self.old ++ anchor ∷ []) }
        ensures err { OnErr result (self.new ≡ self.old) }
    {
        if self.first.len() < FEW {
            self.first.push(anchor)?;
            return Ok(());
        }
        self.others.add(anchor)
    }

    /// Whether one of the anchors is nearer to another than a distance.
    pub fn has_near(&self, anchor: Pixel, distance: u16) -> bool
        requires { IsAnchor anchor }
        ensures { IsTrue result ↔ Any (IsAnchorNear anchor distance) self.now }
    {
        if has_close(&self.first, anchor, distance) {
            return true;
        }
        self.others.has_near(anchor, distance)
    }
}

// Whether one of some anchors is nearer to another than a distance.
fn has_close(anchors: &[Pixel], anchor: Pixel, distance: u16) -> bool
    requires anchors { All IsAnchor anchors.now }
    requires anchor { IsAnchor anchor }
    ensures { IsTrue result ↔ Any (IsAnchorNear anchor distance) anchors.now }
{
    for other in anchors {
        if is_close(anchor, *other, distance) {
            return true;
        }
    }
    false
}

// Whether two anchors are nearer than a distance.
fn is_close(a: Pixel, b: Pixel, distance: u16) -> bool
    requires a { IsAnchor a }
    requires b { IsAnchor b }
    ensures { IsTrue result ↔ (squared_distance a b < square distance) }
{
    let across = apart(a.i(), b.i());
    let down = apart(a.j(), b.j());
    is_within(across, down, distance)
}

// How far apart two columns, or rows, are.
fn apart(a: i64, b: i64) -> u64
    requires a { IsBelow (2 ^ 32) a }
    requires b { IsBelow (2 ^ 32) b }
    ensures { result ≡ unsigned_abs (a -ℤ b) }
{
    a.abs_diff(b)
}
