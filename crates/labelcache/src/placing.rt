ghost use Rattle.std.specs.Prelude.{◌≡◌, ◌↔◌, [], ◌∷◌, ◌++◌, map, All, IsTrue, IfOk, OnOk};
ghost use Rattle.labelcache.specs.Candidate.{IsTextCorner};
ghost use Rattle.labelcache.specs.Placement.{IsClear, IsPage};
ghost use Rattle.labelcache.specs.Placing.{IsFar};

use crate::anchors::Anchors;
use crate::cache::Placed;
use crate::candidate::Candidate;
use collide::Boxes;
use geom::PxBox;
use std::alloc::{AllocError, Global};
use std::marker::Model;

/// The labels that are placed so far. Their boxes and anchors are kept again in the indices that tests query.
#[derive(Drop)]
pub struct Placing<'a> {
    labels: Vec<Placed>,
    boxes: Boxes,
    anchors: Anchors<'a>,
}

impl<'a> Model for Placing<'a> {
    ghost use Rattle.labelcache.specs.Placing.{IsKept, PlacingValue};

    ghost Value = { PlacingValue };

    ghost view = { λ p. record { labels = p.labels.items; candidates = p.anchors } };

    ghost invariant = { λ p. IsKept p.boxes p.labels.items };
}

impl<'a> Placing<'a> {
    /// No labels, on a picture of that width and height.
    pub fn new(alloc: Global, width: u16, height: u16) -> Result<Self, AllocError>
        requires { IsPage width height }
        ensures { IfOk result (λ placing. placing ≡ record { labels = []; candidates = [] }) }
    {
        Ok(Placing {
            labels: Vec::new(alloc),
            boxes: Boxes::new(alloc, width, height)?,
            anchors: Anchors::new(alloc),
        })
    }

    /// Adds a label of that candidate. Where memory is refused, the candidate may be added without its label.
    pub fn add(&mut self, label: Placed, candidate: Candidate<'a>) -> Result<(), AllocError>
        requires { IsTextCorner label.at }
        ensures labels { OnOk result (self.new.labels ≡ self.old.labels ++ label ∷ []) }
        ensures candidates { OnOk result (self.new.candidates ≡ self.old.candidates ++ candidate.entry ∷ []) }
    {
        let taken = label.taken;
        let count = self.labels.len();
        self.anchors.add(candidate)?;
        self.labels.push(label)?;
        match self.boxes.add(taken) {
            Ok(()) => Ok(()),
            Err(error) => {
                self.labels.truncate(count);
                Err(error)
            }
        }
    }

    /// The labels, in the order in which they were placed.
    pub fn into_labels(self) -> Vec<Placed>
        ensures value { result.items ≡ self.entry.labels }
        ensures corners { All (λ label. IsTextCorner label.at) result.items }
    {
        let Placing { labels, .. } = self;
        labels
    }

    /// Whether a box shares no pixel with the boxes of the labels.
    pub fn is_clear(&self, taken: PxBox) -> bool
        ensures { IsTrue result ↔ All (IsClear taken) self.now.labels }
    {
        !self.boxes.hits(taken)
    }

    /// Whether each label of the same text is at least as far from a candidate's anchor as the candidate's label requires.
    pub fn is_far(&self, candidate: &Candidate<'_>) -> bool
        ensures { IsTrue result ↔ IsFar candidate.now self.now.candidates }
    {
        !self.anchors.is_near(candidate)
    }
}
