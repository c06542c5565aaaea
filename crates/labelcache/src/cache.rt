ghost use Rattle.std.specs.Prelude.{◌≡◌, All, [], ◌∷◌, ◌++◌, IfOk, OnOk, OnErr, MatchOption, None, Some, slice_get};
ghost use Rattle.labelcache.specs.Candidate.{IsTextCorner};
ghost use Rattle.labelcache.specs.Placement.{IsPage, IsPlacement, setting};

use crate::candidate::Candidate;
use crate::order::place_all;
use crate::page::Page;
use geom::{Pixel, PxBox};
use mapdefs::Font;
use std::alloc::{AllocError, Global};
use std::marker::Model;

/// A label that is placed: the number of its candidate, the corner of its text, and the box that it
/// takes.
#[derive(Clone, Copy)]
pub struct Placed {
    pub number: usize,
    pub at: Pixel,
    pub taken: PxBox,
}

/// The candidates of a picture, by their numbers: how many were added before each.
#[derive(Drop)]
pub struct Cache<'a> {
    candidates: Vec<Candidate<'a>>,
}

impl<'a> Model for Cache<'a> {
    ghost use Rattle.std.specs.Prelude.{List};
    ghost use Rattle.labelcache.specs.Candidate.{AreWithinPriorities, CandidateValue};

    ghost Value = { List CandidateValue };

    ghost view = { λ c. c.candidates.items };

    ghost invariant = { λ c. AreWithinPriorities c.candidates.items };
}

impl<'a> Cache<'a> {
    /// No candidates. It takes no memory.
    pub fn new(alloc: Global) -> Self
        ensures { result ≡ [] }
    {
        Cache {
            candidates: Vec::new(alloc),
        }
    }

    /// Adds a candidate. Where memory is refused nothing changes.
    pub fn add(&mut self, candidate: Candidate<'a>) -> Result<(), AllocError>
        ensures ok { OnOk result (self.new ≡ self.old ++ candidate.entry ∷ []) }
        ensures err { OnErr result (self.new ≡ self.old) }
    {
        self.candidates.push(candidate)?;
        Ok(())
    }
}

impl Cache<'_> {
    /// The candidate of a number, if there is one.
    pub fn candidate(&self, number: usize) -> Option<&Candidate<'_>>
        ensures { MatchOption result (slice_get self.now number ≡ None) (λ c. slice_get self.now number ≡ Some c.now) }
    {
        self.candidates.get(number)
    }

    /// The placement of the candidates on a picture of that width and height, each at most `MAX_SIDE` pixels, each in its font
    /// of these.
    ///
    /// Where there are candidates, it takes memory for the labels, for the indices that tests query, and for some advances
    /// of the fonts, all from the allocator of the candidates.
    #[tactic(auto, using(crate::proofs::Unlabelled::none_placed))]
    pub fn place(&self, width: u16, height: u16, fonts: &[Font]) -> Result<Vec<Placed>, AllocError>
        requires { IsPage width height }
        ensures corners { IfOk result (λ labels. All (λ label. IsTextCorner label.at) labels.items) }
        ensures placed { IfOk result (λ labels. IsPlacement (setting (record { width = width; height = height; fonts = fonts.now }) self.now) labels.items) }
    {
        let alloc = *self.candidates.allocator();
        if self.candidates.is_empty() {
            return Ok(Vec::new(alloc));
        }
        let page = Page::new(alloc, width, height, fonts)?;
        place_all(alloc, &page, &self.candidates)
    }
}
