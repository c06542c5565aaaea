ghost use Rattle.std.specs.Prelude.{◌≡◌, ◌↔◌, [], ◌∷◌, ◌++◌, IsTrue, OnOk, OnErr};
ghost use Rattle.std.specs.List.{Any};
ghost use Rattle.labelcache.specs.Anchors.{IsAnchorNear};
ghost use Rattle.labelcache.specs.Candidate.{IsAnchor};

use crate::cells::{Marked, has_near, mark_point, point_of};
use geom::Pixel;
use std::alloc::{AllocError, Global};
use std::collections::BTreeSet;
use std::marker::Model;

/// Anchors in the order in which they were added. A near one is searched for in cells within cells, so a search is
/// short however many there are and wherever they lie.
#[derive(Drop)]
pub struct MarkedAnchors {
    anchors: Vec<Pixel>,
    marked: Marked,
}

impl Model for MarkedAnchors {
    ghost use Rattle.std.specs.Prelude.{List};
    ghost use Rattle.geom.specs.Device.{PixelValue};
    ghost use Rattle.labelcache.specs.Cells.{AreNoted};

    ghost Value = { List PixelValue };

    ghost view = { λ p. p.anchors.items };

    ghost invariant = { λ p. AreNoted p.marked p.anchors.items };
}

impl MarkedAnchors {
    /// No anchors. It takes no memory.
    pub fn new(alloc: Global) -> Self
        ensures { result ≡ [] }
    {
        MarkedAnchors {
            anchors: Vec::new(alloc),
            marked: BTreeSet::new(alloc),
        }
    }

    /// Adds an anchor. Where memory is refused nothing changes.
    pub fn add(&mut self, anchor: Pixel) -> Result<(), AllocError>
        requires { IsAnchor anchor }
        ensures ok { OnOk result (self.new ≡ self.old ++ anchor ∷ []) }
        ensures err { OnErr result (self.new ≡ self.old) }
    {
        self.anchors.reserve(1)?;
        mark_point(&mut self.marked, point_of(anchor))?;
        self.anchors.push_reserved(anchor);
        Ok(())
    }

    /// Whether one of the anchors is nearer to another than a distance.
    pub fn has_near(&self, anchor: Pixel, distance: u16) -> bool
        requires { IsAnchor anchor }
        ensures { IsTrue result ↔ Any (IsAnchorNear anchor distance) self.now }
    {
        has_near(&self.marked, point_of(anchor), distance)
    }
}
